// The plain values of a pool: phases, calls and answers.
ghost use Rattle.std.specs.Prelude.{◌≡◌};
ghost use Rattle.pool.specs.Book.{dropped_phase, opened_phase, phase_number, pulled_phase, settled};

use coding::group::Kind;
use layout::refusal::Refusal;

/// Where a pool stands with its changeover.
#[derive(Clone, Copy, PartialEq, Eq, Debug)]
pub enum Phase {
    /// 0: not begun; the parities of the stripes are settled
    Before,
    /// 1: the parities of the rows are being staged
    UnderWay,
    /// 2: voided: a module was pulled while it was under way
    Voided,
    /// 3: done; the parities of the rows are settled
    After,
}

// These are tables of the rules, what a call makes of a phase, and no conversions: by hand, every phase named.
impl Phase {
    /// The phase that a label says.
    pub(crate) fn opened(after: bool) -> Phase
        ensures { result ≡ opened_phase after }
    {
        if after { Phase::After } else { Phase::Before }
    }

    /// The phase that pulling a module leaves.
    pub(crate) fn pulled(self) -> Phase
        ensures { result ≡ pulled_phase self }
    {
        match self {
            Phase::Before => Phase::Before,
            Phase::UnderWay | Phase::Voided => Phase::Voided,
            Phase::After => Phase::After,
        }
    }

    /// The phase that dropping a changeover leaves.
    pub(crate) fn dropped(self) -> Phase
        ensures { result ≡ dropped_phase self }
    {
        match self {
            Phase::Before | Phase::UnderWay | Phase::Voided => Phase::Before,
            Phase::After => Phase::After,
        }
    }

    /// The kind of the groups whose parities are settled.
    // `dropped` has the same arms, but answers a phase: one function for both would ask which is wanted, and be no plainer.
    pub(crate) fn settled(self) -> Kind
        ensures { result ≡ settled self }
    {
        match self {
            Phase::Before | Phase::UnderWay | Phase::Voided => Kind::Stripe,
            Phase::After => Kind::Row,
        }
    }
}

/// The number of a phase.
impl From<Phase> for u16 {
    ghost from_gives = { λ phase number. number ≡ phase_number phase };

    fn from(phase: Phase) -> u16 {
        phase as u16
    }
}

/// A call of a pool, with its arguments.
#[derive(Clone, Copy, PartialEq, Eq, Debug)]
pub enum Call {
    /// chunk and offset
    Read(u16, u16),
    /// chunk, offset and symbol
    Write(u16, u16, u16),
    /// module
    Pull(u16),
    /// module
    Refit(u16),
    Begin,
    Carry,
    Ready,
    Close,
    Drop,
}

/// What an accepted call tells.
#[derive(Clone, Copy, PartialEq, Eq, Debug)]
pub enum Reply {
    /// the symbol that was read
    Symbol(u16),
    /// the data chunks and the parity chunks that were read
    Carried(u16, u16),
    /// nothing but that it is done
    Done,
}

/// What a call answers.
pub type Answer = Result<Reply, Refusal>;
