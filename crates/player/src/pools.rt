// Lines that start a pool over the rack in use, or show the pool in use.
ghost use Rattle.std.specs.Prelude.{◌≡◌, IfOk, None, string_bytes};
ghost use Rattle.pool.specs.Openings.{why_not};
ghost use Rattle.pool.specs.Pools.{standing};
ghost use Rattle.player.specs.Answers.{arithmetic_of, standing_text};
ghost use Rattle.player.specs.Holding.{Ready, Starts, Fits, wanted_refusal, PoolAsked, LayAsked};
ghost use Rattle.std.specs.Option.{option_copied, option_map};

use crate::request::{By, Request, Response, Start, Wanted};
use crate::show::Shown;
use field::{ByteField, Field, NibbleField, PrimeField};
use layout::plan::Plan;
use layout::refusal::Refusal;
use pool::pool::Pool;
use rack::Rack;
use script::command::FieldKind;
use std::alloc::{AllocError, Global};

// What starts the pool that is wanted, if it can be had over a field and a rack.
// Each of the next two takes the field by its name; the last takes a rack that may be missing.
fn check<F: Field, R: Rack>(field: &F, wanted: Wanted, rack: &R) -> Result<By, Refusal>
    ensures why { R.valid rack.now → why_not result ≡ wanted_refusal wanted (F.arithmetic field.now).order (R.meaning rack.now) }
    ensures starts { IfOk result (λ by. Starts wanted by) }
    ensures fits { R.valid rack.now → IfOk result (λ by. Fits by (F.arithmetic field.now).order (R.meaning rack.now)) }
{
    match wanted {
        Wanted::Lay(plan) => {
            Pool::check_lay(&plan, field, rack)?;
            Ok(By::Plan(plan))
        }
        Wanted::Open(bytes) => {
            let bytes: &[u8] = match &bytes {
                Some(bytes) => bytes,
                None => &[],
            };
            Ok(By::Label(Pool::check_open(bytes, field, rack)?))
        }
    }
}

// The same over a field that is named. Each arm has a field of another type, so no closure stands for all.
fn check_over<R: Rack>(field: FieldKind, wanted: Wanted, rack: &R) -> Result<By, Refusal>
    ensures why { R.valid rack.now → why_not result ≡ wanted_refusal wanted (arithmetic_of field).order (R.meaning rack.now) }
    ensures starts { IfOk result (λ by. Starts wanted by) }
    ensures fits { R.valid rack.now → IfOk result (λ by. Fits by (arithmetic_of field).order (R.meaning rack.now)) }
{
    match field {
        FieldKind::Byte => check(&ByteField, wanted, rack),
        FieldKind::Nibble => check(&NibbleField, wanted, rack),
        FieldKind::Prime => check(&PrimeField, wanted, rack),
    }
}

/// A line that only says something.
pub fn say(heap: Global, text: &str) -> Result<Response, AllocError>
    ensures { IfOk result (λ a. (a.request ≡ None) × (string_bytes a.text ≡ text.now)) }
{
    Ok(Response::only(String::from_str(heap, text)?))
}

/// A line that wants a pool over the rack in use.
pub fn ask_pool<R: Rack>(
    heap: Global,
    field: FieldKind,
    wanted: Wanted,
    rack: Option<&R>,
) -> Result<Response, AllocError>
    ensures { Ready R.valid (option_copied rack.entry) → IfOk result (λ a. PoolAsked field wanted (option_map R.meaning (option_copied rack.entry)) a.request (string_bytes a.text)) }
{
    let Some(rack) = rack else {
        return say(heap, "no rack");
    };
    match check_over(field, wanted, rack) {
        Ok(by) => Ok(Response {
            text: String::from_str(heap, "ok")?,
            request: Some(Request::Pool(Start { field, by })),
        }),
        Err(refusal) => Ok(Response::only(format!(in heap; "{refusal}")?)),
    }
}

/// A line that lays a pool by the plan in use over the rack in use.
pub fn ask_lay<R: Rack>(
    heap: Global,
    plan: Option<Plan>,
    rack: Option<&R>,
    field: FieldKind,
) -> Result<Response, AllocError>
    ensures { Ready R.valid (option_copied rack.entry) → IfOk result (λ a. LayAsked plan field (option_map R.meaning (option_copied rack.entry)) a.request (string_bytes a.text)) }
{
    match plan {
        Some(plan) => ask_pool(heap, field, Wanted::Lay(plan), rack),
        None => say(heap, "no plan"),
    }
}

/// How the pool stands, and its memory.
pub fn show_pool<F: Field, R: Rack>(heap: Global, pool: &Pool<F, R>) -> Result<String, AllocError>
    requires { R.valid pool.now.rack }
    ensures { IfOk result (λ text. string_bytes text ≡ standing_text pool.now.plan (standing F.arithmetic R.valid R.meaning pool.now)) }
{
    let shown = Shown {
        plan: pool.plan(),
        phase: pool.phase(),
        carried: pool.carried(),
        rack: pool.rack(),
    };
    format!(in heap; "{shown}")
}
