// The texts that are printed for a pool.
ghost use Rattle.std.specs.Prelude.{◌≡◌, IfOk, Some, string_bytes};
ghost use Rattle.layout.specs.Counts.{slots_of};
ghost use Rattle.player.specs.Shows.{answer_text, carried_now, phase_text, out_text, slot_text, module_text, show_text};
ghost use Rattle.std.specs.Fmt.{DisplaysOnOk};

use layout::plan::Plan;
use pool::kinds::{Answer, Phase, Reply};
use rack::{Rack, symbol};
use std::alloc::{AllocError, Global};
use std::fmt;

/// The text of an answer.
// No Display: an answer is a Result, a type of the library.
pub fn answer_text(heap: Global, answer: Answer) -> Result<String, AllocError>
    ensures { IfOk result (λ s. string_bytes s ≡ answer_text answer) }
{
    match answer {
        Ok(Reply::Symbol(symbol)) => format!(in heap; "ok {symbol}"),
        Ok(Reply::Carried(data, parities)) => format!(in heap; "ok {data} {parities}"),
        Ok(Reply::Done) => String::from_str(heap, "ok"),
        Err(refusal) => format!(in heap; "{refusal}"),
    }
}

// The stripes that are carried: none outside a changeover. By hand: it takes the count too, so this is no conversion of a phase.
fn carried_now(phase: Phase, carried: u16) -> u16
    ensures { result ≡ carried_now phase carried }
{
    match phase {
        Phase::UnderWay | Phase::Voided => carried,
        Phase::Before | Phase::After => 0,
    }
}

/// What is shown of a pool: its phase, the stripes that are carried, the modules that are out, and the symbols in the others.
#[derive(Drop)]
pub struct Shown<'a, R: Rack> {
    pub plan: Plan,
    pub phase: Phase,
    pub carried: u16,
    pub rack: &'a R,
    ghost valid: { ∥ R.valid rack.now ∥₁ },
}

impl<R: Rack> Shown<'_, R> {
    // Whether a module is fitted.
    fn is_fitted(&self, module: u16) -> bool
        ensures { result ≡ (R.meaning self.now.rack.now).fitted «module» }
    {
        self.rack.ask(module)
    }

    // The symbol at a place; 0 where there is none.
    fn symbol_at(&self, module: u16, slot: u16, offset: u16) -> u16
        ensures { result ≡ (R.meaning self.now.rack.now).symbol «module» slot offset }
    {
        symbol(self.rack, module, slot, offset)
    }

    // The phase, and the stripes that are carried.
    fn write_head<W: fmt::Write>(&self, f: &mut fmt::Formatter<W>) -> fmt::Result
        ensures { DisplaysOnOk W.write_str_gives f.old result (Some (phase_text self.now.phase self.now.carried)) f.new }
    {
        let number = u16::from(self.phase);
        let stripes = carried_now(self.phase, self.carried);
        write!(f, "phase {number}, carried {stripes}, out")
    }

    // A module, after a space, if it is out.
    fn write_out<W: fmt::Write>(&self, module: u16, f: &mut fmt::Formatter<W>) -> fmt::Result
        ensures { DisplaysOnOk W.write_str_gives f.old result (Some (out_text (R.meaning self.now.rack.now) «module»)) f.new }
    {
        if self.is_fitted(module) {
            Ok(())
        } else {
            write!(f, " {module}")
        }
    }

    // A line with the symbols of a slot.
    fn write_slot<W: fmt::Write>(
        &self,
        module: u16,
        slot: u16,
        f: &mut fmt::Formatter<W>,
    ) -> fmt::Result
        ensures { DisplaysOnOk W.write_str_gives f.old result (Some (slot_text (R.meaning self.now.rack.now) self.now.plan.len «module» slot)) f.new }
    {
        write!(f, "\nmodule {module} slot {slot}:")?;
        for offset in 0..self.plan.len {
            let shown = self.symbol_at(module, slot, offset);
            write!(f, " {shown}")?;
        }
        Ok(())
    }

    // The lines of a module, if it is fitted.
    fn write_module<W: fmt::Write>(&self, module: u16, f: &mut fmt::Formatter<W>) -> fmt::Result
        ensures { DisplaysOnOk W.write_str_gives f.old result (Some (module_text (R.meaning self.now.rack.now) self.now.plan.len (slots_of self.now.plan.d self.now.plan.d2) «module»)) f.new }
    {
        if self.is_fitted(module) {
            for slot in 0..self.plan.slots() {
                self.write_slot(module, slot, f)?;
            }
        }
        Ok(())
    }
}

impl<R: Rack> fmt::Display for Shown<'_, R> {
    ghost output = { λ s. Some (show_text s.plan s.phase s.carried (R.meaning s.rack.now)) };

    fn fmt<W: fmt::Write>(&self, f: &mut fmt::Formatter<W>) -> fmt::Result {
        self.write_head(f)?;
        for module in 0..self.plan.modules() {
            self.write_out(module, f)?;
        }
        for module in 0..self.plan.modules() {
            self.write_module(module, f)?;
        }
        Ok(())
    }
}
