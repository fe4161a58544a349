// The answer to a command.
ghost use Rattle.std.specs.Prelude.{◌≡◌, IfOk, Some, None, string_bytes};
ghost use Rattle.player.specs.Answers.{Memory, rack_in, state, asked, Replies, Responds};
ghost use Rattle.player.specs.Holding.{IsAlike, Possible, Ready, alone, within, memory_by, call_in, PlanSet, RackAsked};
ghost use Rattle.player.specs.Texts.{map_text, label_text};
ghost use Rattle.std.specs.Option.{option_copied, option_map};

use crate::request::{RackRequest, Request, Response, Wanted};
use crate::{pools, racks, text};
use field::Field;
use layout::label::Label;
use layout::plan::Plan;
use layout::refusal::Refusal;
use pool::pool::Pool;
use rack::Rack;
use script::command::Command;
use std::alloc::{AllocError, Global};

// A line that sets the plan.
fn set_plan(
    heap: Global,
    plan: &mut Option<Plan>,
    new: Result<Plan, Refusal>,
) -> Result<String, AllocError>
    ensures { IfOk result (λ text. PlanSet plan.old new plan.new (string_bytes text)) }
{
    match new {
        Ok(new) => {
            *plan = Some(new);
            String::from_str(heap, "ok")
        }
        Err(refusal) => format!(in heap; "{refusal}"),
    }
}

// A line that shows the plan.
fn show_plan(heap: Global, plan: &Option<Plan>) -> Result<String, AllocError>
    ensures { IfOk result (λ text. string_bytes text ≡ asked plan.now map_text) }
{
    match plan {
        Some(plan) => {
            let map = text::Map(plan);
            format!(in heap; "{map}")
        }
        None => String::from_str(heap, "no plan"),
    }
}

// A line that shows the plan's label.
fn show_label(heap: Global, plan: Option<Plan>, after: bool) -> Result<String, AllocError>
    ensures { IfOk result (λ text. string_bytes text ≡ asked plan (λ p. label_text p after)) }
{
    match plan {
        Some(plan) => text::label(heap, Label { plan, after }),
        None => String::from_str(heap, "no plan"),
    }
}

// A line that asks for a rack.
fn ask_rack(heap: Global, request: RackRequest) -> Result<Response, AllocError>
    ensures { IfOk result (λ a. RackAsked request a.request (string_bytes a.text)) }
{
    if request.size.is_fair() {
        Ok(Response {
            text: String::from_str(heap, "ok")?,
            request: Some(Request::Rack(request)),
        })
    } else {
        let refusal = Refusal::UnfitMemory;
        Ok(Response::only(format!(in heap; "{refusal}")?))
    }
}

// The functions that answer take the heap, the plan and the rack side by side: the rack is lent to be altered, to be looked at, or within
// a pool, so a struct of the three would be another in each, and made anew for each line.

// The answer to a command that is answered alike whether a pool has the rack or none has.
fn respond_alike<R: Rack>(
    heap: Global,
    plan: &mut Option<Plan>,
    rack: Option<&R>,
    command: Command,
) -> Result<Response, AllocError>
    requires { IsAlike command }
    ensures { Ready R.valid (option_copied rack.entry) → IfOk result (λ a. ((m : Memory) → rack_in m ≡ option_map R.meaning (option_copied rack.entry) → Responds (state plan.old m) command (state plan.new (memory_by a.request m)) (string_bytes a.text)) × Possible a.request (option_map R.meaning (option_copied rack.entry))) }
{
    match command {
        Command::Plan(order, d, r, d2, r2, len) => {
            let new = Plan::new(order, d, r, d2, r2, len);
            Ok(Response::only(set_plan(heap, plan, new)?))
        }
        Command::Map => Ok(Response::only(show_plan(heap, plan)?)),
        Command::Label(after) => Ok(Response::only(show_label(heap, *plan, after)?)),
        Command::Rack(kind, size) => ask_rack(heap, RackRequest { kind, size }),
        Command::Lay(field) => pools::ask_lay(heap, *plan, rack, field),
        Command::Open(field, bytes) => pools::ask_pool(heap, field, Wanted::Open(bytes), rack),
        Command::OnRack(_) | Command::OnPool(_) | Command::Show | Command::PoolLabel =>
            unreachable!(),
    }
}

// The answer to a command where no pool has the rack.
fn respond<R: Rack>(
    heap: Global,
    plan: &mut Option<Plan>,
    rack: &mut Option<R>,
    command: Command,
) -> Result<Response, AllocError>
    ensures { Ready R.valid rack.old → IfOk result (λ a. Responds (state plan.old (alone (option_map R.meaning rack.old))) command (state plan.new (memory_by a.request (alone (option_map R.meaning rack.new)))) (string_bytes a.text) × Ready R.valid rack.new × Possible a.request (option_map R.meaning rack.new)) }
{
    match command {
        Command::OnRack(call) => {
            let outcome = racks::on_rack_in_use(rack, call);
            Ok(Response::only(outcome.text(heap)?))
        }
        Command::OnPool(_) | Command::Show | Command::PoolLabel => pools::say(heap, "no pool"),
        _ => respond_alike(heap, plan, rack.as_ref(), command),
    }
}

/// The answer to what was read of a line where no pool has the rack.
pub fn answer<R: Rack>(
    heap: Global,
    plan: &mut Option<Plan>,
    rack: &mut Option<R>,
    command: Option<Command>,
) -> Result<Response, AllocError>
    ensures { Ready R.valid rack.old → IfOk result (λ a. Replies (state plan.old (alone (option_map R.meaning rack.old))) command (state plan.new (memory_by a.request (alone (option_map R.meaning rack.new)))) (string_bytes a.text) × Ready R.valid rack.new × Possible a.request (option_map R.meaning rack.new)) }
{
    match command {
        Some(command) => respond(heap, plan, rack, command),
        None => pools::say(heap, "not understood"),
    }
}

// The answer to a command that is no call on the pool, where a pool has the rack.
fn respond_pooled<F: Field, R: Rack>(
    heap: Global,
    plan: &mut Option<Plan>,
    pool: &Pool<F, R>,
    command: Command,
) -> Result<Response, AllocError>
    requires other { call_in (Some command) ≡ None }
    requires valid { R.valid pool.now.rack }
    ensures { IfOk result (λ a. Responds (state plan.old (within F.arithmetic R.valid R.meaning pool.now)) command (state plan.new (memory_by a.request (within F.arithmetic R.valid R.meaning pool.now))) (string_bytes a.text) × Possible a.request (Some (R.meaning pool.now.rack))) }
{
    match command {
        Command::OnRack(_) => pools::say(heap, "no rack"),
        Command::OnPool(_) => unreachable!(),
        Command::Show => Ok(Response::only(pools::show_pool(heap, pool)?)),
        Command::PoolLabel => Ok(Response::only(text::label(heap, pool.label())?)),
        _ => respond_alike(heap, plan, Some(pool.rack()), command),
    }
}

/// The answer to what was read of a line, but for a call on the pool, where a pool has the rack.
pub fn answer_pooled<F: Field, R: Rack>(
    heap: Global,
    plan: &mut Option<Plan>,
    pool: &Pool<F, R>,
    command: Option<Command>,
) -> Result<Response, AllocError>
    requires other { call_in command ≡ None }
    requires valid { R.valid pool.now.rack }
    ensures { IfOk result (λ a. Replies (state plan.old (within F.arithmetic R.valid R.meaning pool.now)) command (state plan.new (memory_by a.request (within F.arithmetic R.valid R.meaning pool.now))) (string_bytes a.text) × Possible a.request (Some (R.meaning pool.now.rack))) }
{
    match command {
        Some(command) => respond_pooled(heap, plan, pool, command),
        None => pools::say(heap, "not understood"),
    }
}
