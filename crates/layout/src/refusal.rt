// Why a call is refused.
ghost use Rattle.std.specs.Prelude.{◌≡◌, Some};
ghost use Rattle.layout.specs.Rules.{number, layer, place, layer_name, refused_text};

use std::fmt;

/// The part of the software that refuses.
#[derive(Clone, Copy, PartialEq, Eq, Debug)]
pub enum Layer {
    Rack,
    Layout,
    Pool,
    Coding,
}

/// A refusal: the rule that a call breaks, one variant for each rule, with its place where the rule names one.
/// One type serves all libraries. A refused call alters nothing.
// A place is a plain number, since the rules give it as one, and it is printed and handed to C as one.
#[derive(Clone, Copy, PartialEq, Eq, Debug)]
pub enum Refusal {
    /// 1: memory cannot serve as a rack of these numbers
    UnfitMemory,
    /// 2: a number of a plan is out of its range: the first wrong one of d, r, d', r', L, 1 to 5
    OutOfRange(u16),
    /// 3: the loss of one module can take more chunks of a stripe than the stripe has parities
    TooFewParities,
    /// 4: the field has too few codes for four parities and every coefficient column
    TooFewCodes,
    /// 5: laying or opening, and the field's order (1) or the rack's order (2) is not the plan's, or the rack has too few
    /// modules (3), slots (4) or symbols in a slot (5)
    DoesNotFit(u16),
    /// 6: there is no such module
    NoModule(u16),
    /// 7: there is no such chunk (1), or no such offset (2)
    NoWord(u16),
    /// 8: no symbol of the field
    NoSymbol(u16),
    /// 9: not in this phase
    WrongPhase(u16),
    /// 10: a module to pull is out, or one to refit is fitted
    AlreadySo(u16),
    /// 11: a module is out
    ModuleOut(u16),
    /// 12: the changeover is voided
    ChangeoverVoided,
    /// 13: all stripes are carried already, or not yet all: how many are
    WrongCount(u16),
    /// 14: beyond repair: the stripe or row misses more pieces than it has parities
    BeyondRepair(u16),
    /// 15: a buffer is not that of a label
    NotALabel,
}

impl Refusal {
    /// The number of the rule.
    // By hand: C and the texts take this number, and a variant with a place has no discriminant to read.
    pub fn number(&self) -> u8
        ensures { result ≡ number self.now }
    {
        match self {
            Refusal::UnfitMemory => 1,
            Refusal::OutOfRange(_) => 2,
            Refusal::TooFewParities => 3,
            Refusal::TooFewCodes => 4,
            Refusal::DoesNotFit(_) => 5,
            Refusal::NoModule(_) => 6,
            Refusal::NoWord(_) => 7,
            Refusal::NoSymbol(_) => 8,
            Refusal::WrongPhase(_) => 9,
            Refusal::AlreadySo(_) => 10,
            Refusal::ModuleOut(_) => 11,
            Refusal::ChangeoverVoided => 12,
            Refusal::WrongCount(_) => 13,
            Refusal::BeyondRepair(_) => 14,
            Refusal::NotALabel => 15,
        }
    }

    /// The layer of the rule.
    // By hand: a table of the rules, four layers for fifteen variants, which no derive gives.
    pub fn layer(&self) -> Layer
        ensures { result ≡ layer self.now }
    {
        match self {
            Refusal::UnfitMemory | Refusal::DoesNotFit(_) => Layer::Rack,
            Refusal::OutOfRange(_)
            | Refusal::TooFewParities
            | Refusal::TooFewCodes
            | Refusal::NotALabel => Layer::Layout,
            Refusal::NoModule(_)
            | Refusal::NoWord(_)
            | Refusal::NoSymbol(_)
            | Refusal::WrongPhase(_)
            | Refusal::AlreadySo(_)
            | Refusal::ModuleOut(_)
            | Refusal::ChangeoverVoided
            | Refusal::WrongCount(_) => Layer::Pool,
            Refusal::BeyondRepair(_) => Layer::Coding,
        }
    }

    /// The place that the rule names, else 0.
    // By hand, like the number and the layer.
    pub fn place(&self) -> u16
        ensures { result ≡ place self.now }
    {
        match self {
            Refusal::OutOfRange(place)
            | Refusal::DoesNotFit(place)
            | Refusal::NoModule(place)
            | Refusal::NoWord(place)
            | Refusal::NoSymbol(place)
            | Refusal::WrongPhase(place)
            | Refusal::AlreadySo(place)
            | Refusal::ModuleOut(place)
            | Refusal::WrongCount(place)
            | Refusal::BeyondRepair(place) => *place,
            Refusal::UnfitMemory
            | Refusal::TooFewParities
            | Refusal::TooFewCodes
            | Refusal::ChangeoverVoided
            | Refusal::NotALabel => 0,
        }
    }
}

impl fmt::Display for Layer {
    ghost output = { λ layer. Some (layer_name layer) };

    fn fmt<W: fmt::Write>(&self, f: &mut fmt::Formatter<W>) -> fmt::Result {
        f.write_str(match self {
            Layer::Rack => "rack",
            Layer::Layout => "layout",
            Layer::Pool => "pool",
            Layer::Coding => "coding",
        })
    }
}

impl fmt::Display for Refusal {
    ghost output = { λ refusal. Some (refused_text refusal) };

    fn fmt<W: fmt::Write>(&self, f: &mut fmt::Formatter<W>) -> fmt::Result {
        let number = self.number();
        let layer = self.layer();
        let place = self.place();
        write!(f, "refused {number} {layer} {place}")
    }
}
