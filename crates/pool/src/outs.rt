// Which modules of a pool are out.
ghost use Rattle.coding.specs.Schemes.{scheme_of};
ghost use Rattle.pool.specs.Outs.{Outs};

use layout::plan::Plan;
use rack::rack::Rack;

/// Whether each module of the plan is out. No flag is set past them.
pub(crate) fn outs<R: Rack>(rack: &R, plan: &Plan) -> [bool; 32]
    ensures { R.valid rack.now → Outs (scheme_of plan.now) (R.meaning rack.now) result }
{
    // m is a module as well as an index, and none past the plan's may be asked: as a closure this wants clauses, and of the values
    // behind an adapter of `iter_mut` nothing is known
    let mut out = [false; 32];
    for m in 0..plan.modules() {
        out[m as usize] = !rack.ask(m);
    }
    out
}
