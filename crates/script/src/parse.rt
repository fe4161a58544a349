// The commands of a script, as its lines write them.
ghost use Rattle.std.specs.Prelude.{◌≡◌, ℕ, List, MatchOption, ◌≢◌};
ghost use Rattle.script.specs.Script.{Writes, Takes, Understood, spelled};
ghost use Rattle.script.specs.Words.{word, rest};

use crate::command::{Command, FieldKind, Name, RackCall, RackKind};
use crate::words::{hex_word, is_blank, numbers, split_word};
use pool::kinds::Call;
use rack::Size;

// A value that one word spells.
// The tables of words are by hand: no derive gives them, and a Display would write them where a line is compared with them.
trait Spelled: Copy + 'static {
    ghost use Rattle.std.specs.List.{Contains};

    // How it is spelled.
    ghost spelled: { Self → List ℕ };

    fn spelling(self) -> &'static [u8]
        ensures { result.now ≡ spelled self };

    // The values that a word may spell: all that it does are among them.
    fn among(word: &[u8]) -> &'static [Self]
        ensures { (x : Self) → word.now ≡ spelled x → Contains result.now x };
}

// The value that a word spells.
fn spelled_by<T: Spelled + 'static>(word: &[u8]) -> Option<T>
    ensures { MatchOption result ((x : T) → word.now ≢ T.spelled x) (λ x. word.now ≡ T.spelled x) }
{
    T::among(word)
        .iter()
        .copied()
        .find(|value| value.spelling() == word)
}

impl Spelled for Name {
    ghost use Rattle.script.specs.Script.{spelled};

    ghost spelled = { spelled };

    fn spelling(self) -> &'static [u8] {
        match self {
            Name::Plan => b"plan",
            Name::Map => b"map",
            Name::Label => b"label",
            Name::Rack => b"rack",
            Name::Get => b"get",
            Name::Put => b"put",
            Name::PullModule => b"pull-module",
            Name::FitModule => b"fit-module",
            Name::Ask => b"ask",
            Name::Lay => b"lay",
            Name::Open => b"open",
            Name::Read => b"read",
            Name::Write => b"write",
            Name::Pull => b"pull",
            Name::Refit => b"refit",
            Name::Begin => b"begin",
            Name::Carry => b"carry",
            Name::Ready => b"ready",
            Name::Close => b"close",
            Name::Drop => b"drop",
            Name::Show => b"show",
        }
    }

    // By the first byte, so that a word is compared with few names.
    fn among(word: &[u8]) -> &'static [Name] {
        match word.first() {
            Some(b'a') => &[Name::Ask],
            Some(b'b') => &[Name::Begin],
            Some(b'c') => &[Name::Carry, Name::Close],
            Some(b'd') => &[Name::Drop],
            Some(b'f') => &[Name::FitModule],
            Some(b'g') => &[Name::Get],
            Some(b'l') => &[Name::Label, Name::Lay],
            Some(b'm') => &[Name::Map],
            Some(b'o') => &[Name::Open],
            Some(b'p') => &[Name::Plan, Name::Put, Name::Pull, Name::PullModule],
            Some(b'r') => &[Name::Rack, Name::Read, Name::Ready, Name::Refit],
            Some(b's') => &[Name::Show],
            Some(b'w') => &[Name::Write],
            _ => &[],
        }
    }
}

impl Spelled for RackKind {
    ghost use Rattle.script.specs.Script.{kind_name};

    ghost spelled = { kind_name };

    fn spelling(self) -> &'static [u8] {
        match self {
            RackKind::Flat => b"flat",
            RackKind::Turning => b"turning",
        }
    }

    fn among(_word: &[u8]) -> &'static [RackKind] {
        &[RackKind::Flat, RackKind::Turning]
    }
}

impl Spelled for FieldKind {
    ghost use Rattle.script.specs.Script.{field_name};

    ghost spelled = { field_name };

    fn spelling(self) -> &'static [u8] {
        match self {
            FieldKind::Byte => b"byte",
            FieldKind::Nibble => b"nibble",
            FieldKind::Prime => b"prime",
        }
    }

    fn among(_word: &[u8]) -> &'static [FieldKind] {
        &[FieldKind::Byte, FieldKind::Nibble, FieldKind::Prime]
    }
}

// The label of the pool, or with a flag that of the plan.
fn label_command(text: &[u8]) -> Option<Command>
    ensures { Takes Name.Label text.now result }
{
    if is_blank(text) {
        return Some(Command::PoolLabel);
    }
    let [flag] = numbers::<1>(text)?;
    match flag {
        0 => Some(Command::Label(false)),
        1 => Some(Command::Label(true)),
        _ => None,
    }
}

fn rack_command(text: &[u8]) -> Option<Command>
    ensures { Takes Name.Rack text.now result }
{
    let (word, rest) = split_word(text);
    let kind = spelled_by(word)?;
    let [order, modules, slots, length] = numbers::<4>(rest)?;
    let size = Size {
        order,
        modules,
        slots,
        length,
    };
    Some(Command::Rack(kind, size))
}

fn lay_command(text: &[u8]) -> Option<Command>
    ensures { Takes Name.Lay text.now result }
{
    let (word, rest) = split_word(text);
    let field = spelled_by(word)?;
    if is_blank(rest) {
        Some(Command::Lay(field))
    } else {
        None
    }
}

fn open_command(text: &[u8]) -> Option<Command>
    ensures { Takes Name.Open text.now result }
{
    let (word, rest) = split_word(text);
    let field = spelled_by(word)?;
    let (digits, rest) = split_word(rest);
    let label = hex_word(digits)?;
    if is_blank(rest) {
        Some(Command::Open(field, label))
    } else {
        None
    }
}

// The command of a name that a text writes the arguments of.
// An array is taken apart by `let` in each arm: of a closure that takes one by a pattern, as in `map`, the check finds no contract.
pub(crate) fn command_of(name: Name, text: &[u8]) -> Option<Command>
    ensures { Takes name text.now result }
{
    match name {
        Name::Plan => {
            let [order, d, r, d2, r2, len] = numbers::<6>(text)?;
            Some(Command::Plan(order, d, r, d2, r2, len))
        }
        Name::Map => {
            let [] = numbers::<0>(text)?;
            Some(Command::Map)
        }
        Name::Label => label_command(text),
        Name::Rack => rack_command(text),
        Name::Get => {
            let [module, slot, offset] = numbers::<3>(text)?;
            Some(Command::OnRack(RackCall::Get(module, slot, offset)))
        }
        Name::Put => {
            let [module, slot, offset, symbol] = numbers::<4>(text)?;
            Some(Command::OnRack(RackCall::Put(module, slot, offset, symbol)))
        }
        Name::PullModule => {
            let [module] = numbers::<1>(text)?;
            Some(Command::OnRack(RackCall::Pull(module)))
        }
        Name::FitModule => {
            let [module] = numbers::<1>(text)?;
            Some(Command::OnRack(RackCall::Fit(module)))
        }
        Name::Ask => {
            let [module] = numbers::<1>(text)?;
            Some(Command::OnRack(RackCall::Ask(module)))
        }
        Name::Lay => lay_command(text),
        Name::Open => open_command(text),
        Name::Read => {
            let [chunk, offset] = numbers::<2>(text)?;
            Some(Command::OnPool(Call::Read(chunk, offset)))
        }
        Name::Write => {
            let [chunk, offset, symbol] = numbers::<3>(text)?;
            Some(Command::OnPool(Call::Write(chunk, offset, symbol)))
        }
        Name::Pull => {
            let [module] = numbers::<1>(text)?;
            Some(Command::OnPool(Call::Pull(module)))
        }
        Name::Refit => {
            let [module] = numbers::<1>(text)?;
            Some(Command::OnPool(Call::Refit(module)))
        }
        Name::Begin => {
            let [] = numbers::<0>(text)?;
            Some(Command::OnPool(Call::Begin))
        }
        Name::Carry => {
            let [] = numbers::<0>(text)?;
            Some(Command::OnPool(Call::Carry))
        }
        Name::Ready => {
            let [] = numbers::<0>(text)?;
            Some(Command::OnPool(Call::Ready))
        }
        Name::Close => {
            let [] = numbers::<0>(text)?;
            Some(Command::OnPool(Call::Close))
        }
        Name::Drop => {
            let [] = numbers::<0>(text)?;
            Some(Command::OnPool(Call::Drop))
        }
        Name::Show => {
            let [] = numbers::<0>(text)?;
            Some(Command::Show)
        }
    }
}

// The name that a line begins with, and what stands after it.
pub(crate) fn split_name(line: &[u8]) -> Option<(Name, &[u8])>
    ensures { MatchOption result ((n : Name) → word line.now ≢ spelled n) (λ r. (word line.now ≡ spelled r.0) × (r.1.now ≡ rest line.now)) }
{
    let (word, rest) = split_word(line);
    let name = spelled_by(word)?;
    Some((name, rest))
}

/// The command that a line writes.
pub fn parse(line: &[u8]) -> Option<Command>
    ensures { Understood Writes line.now result }
{
    let (name, rest) = split_name(line)?;
    command_of(name, rest)
}
