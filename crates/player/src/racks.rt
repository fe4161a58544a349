// Calls on the rack in use.
ghost use Rattle.std.specs.Prelude.{◌≡◌};
ghost use Rattle.player.specs.Answers.{called_text, called, rack_text, rack_after};
ghost use Rattle.player.specs.Holding.{alone, outcome_text, Ready};
ghost use Rattle.std.specs.Option.{option_map};

use rack::Rack;
use script::command::RackCall;
use std::alloc::{AllocError, Global};
use std::fmt;

/// What a call on the rack came to.
#[derive(Clone, Copy, PartialEq, Eq, Debug)]
pub enum Outcome {
    /// the symbol, if there is one
    Got(Option<u16>),
    /// whether anything was done
    Done(bool),
    /// whether the module is fitted
    Fitted(bool),
    /// there is no rack: a line says so as it says each other outcome, so an Option around them would only be taken apart again
    NoRack,
}

// A call on a rack.
fn on_rack<R: Rack>(rack: &mut R, call: RackCall) -> Outcome
    ensures { R.valid rack.old → (outcome_text result ≡ called_text (R.meaning rack.old) call) × (R.meaning rack.new ≡ called (R.meaning rack.old) call) × R.valid rack.new }
{
    match call {
        RackCall::Get(module, slot, offset) => Outcome::Got(rack.get(module, slot, offset)),
        RackCall::Put(module, slot, offset, symbol) => {
            Outcome::Done(rack.put(module, slot, offset, symbol))
        }
        RackCall::Pull(module) => Outcome::Done(rack.pull(module)),
        RackCall::Fit(module) => Outcome::Done(rack.fit(module)),
        RackCall::Ask(module) => Outcome::Fitted(rack.ask(module)),
    }
}

/// A call on the rack in use, if there is one.
// By hand: `map_or` would need clauses on its closure, and be no plainer.
pub fn on_rack_in_use<R: Rack>(rack: &mut Option<R>, call: RackCall) -> Outcome
    ensures { Ready R.valid rack.old → (outcome_text result ≡ rack_text (alone (option_map R.meaning rack.old)) call) × (alone (option_map R.meaning rack.new) ≡ rack_after (alone (option_map R.meaning rack.old)) call) × Ready R.valid rack.new }
{
    match rack {
        Some(rack) => on_rack(rack, call),
        None => Outcome::NoRack,
    }
}

impl Outcome {
    ghost use Rattle.std.specs.Prelude.{MatchResult, ◌++◌, IfOk, codes, decimal, string_bytes};

    // The words that say it, or else the symbol that is said.
    fn words(self) -> Result<&'static str, u16>
        ensures { MatchResult result (λ words. words.now ≡ outcome_text self) (λ symbol. codes "ok " ++ decimal symbol ≡ outcome_text self) }
    {
        match self {
            Outcome::Got(Some(symbol)) => Err(symbol),
            Outcome::Got(None) => Ok("nothing"),
            Outcome::Done(true) => Ok("done"),
            Outcome::Done(false) => Ok("nothing done"),
            Outcome::Fitted(true) => Ok("fitted"),
            Outcome::Fitted(false) => Ok("out"),
            Outcome::NoRack => Ok("no rack"),
        }
    }

    /// The text that says it. Words are copied at their length, where `format!` would make room step by step.
    pub fn text(self, heap: Global) -> Result<String, AllocError>
        ensures { IfOk result (λ text. string_bytes text ≡ outcome_text self) }
    {
        match self.words() {
            Ok(words) => String::from_str(heap, words),
            Err(_) => format!(in heap; "{self}"),
        }
    }
}

impl fmt::Display for Outcome {
    ghost use Rattle.std.specs.Prelude.{Some};
    ghost use Rattle.player.specs.Holding.{outcome_text};

    ghost output = { λ o. Some (outcome_text o) };

    fn fmt<W: fmt::Write>(&self, f: &mut fmt::Formatter<W>) -> fmt::Result {
        match self.words() {
            Ok(words) => f.write_str(words),
            Err(symbol) => write!(f, "ok {symbol}"),
        }
    }
}
