// A pool that is laid and then made a list of calls.
ghost use Rattle.std.specs.Prelude.{◌≡◌, length, take, drop, None};
ghost use Rattle.pool.specs.Openings.{lay_refusal};
ghost use Rattle.pool.specs.Replays.{LaidAndReplayed};

use crate::kinds::{Answer, Call};
use crate::pool::Pool;
use field::Field;
use layout::plan::Plan;
use rack::rack::Rack;

/// Lays a pool over a rack that the check does not refuse, makes a list of calls of it, one after another, and writes what each
/// answers into `told`, as `replay` does. Its contract is the law of pools, over every field, every rack and every list of calls.
pub fn lay_and_replay<F: Field, R: Rack>(
    plan: Plan,
    field: F,
    rack: R,
    calls: &[Call],
    told: &mut [Answer],
) -> Pool<F, R>
    requires valid { R.valid rack }
    requires fits { lay_refusal plan (F.arithmetic field).order (R.meaning rack) ≡ None }
    ensures law { LaidAndReplayed F.arithmetic R.valid R.meaning plan field rack result (take (length told.old) calls.now) (take (length calls.now) told.new) }
    ensures rest { drop (length calls.now) told.new ≡ drop (length calls.now) told.old }
    ensures long { length told.new ≡ length told.old }
{
    let mut pool = Pool::lay(plan, field, rack);
    pool.replay(calls, told);
    pool
}
