// A word of a pool: an offset of a chunk.
ghost use Rattle.std.specs.Prelude.{◌≡◌, ◌<◌, IfOk, Some, None};
ghost use Rattle.coding.specs.Groups.{groups, index_of};
ghost use Rattle.coding.specs.Schemes.{scheme_of};
ghost use Rattle.layout.specs.Places.{CellOf};
ghost use Rattle.pool.specs.Book.{group_of, word_refusal};
ghost use Rattle.pool.specs.Openings.{why_not};

use coding::group::Kind;
use layout::plan::{Cell, Plan};
use layout::refusal::Refusal;

/// A word that is there, by the plan, with the cell of its chunk.
#[derive(Clone, Copy)]
pub(crate) struct Word {
    pub(crate) plan: Plan,
    pub(crate) chunk: u16,
    pub(crate) cell: Cell,
    pub(crate) offset: u16,
    ghost placed: { CellOf plan.d plan.d2 chunk (Some cell) },
    ghost inside: { offset < plan.len },
}

impl Word {
    /// A word of a plan. Refused where there is no such chunk or offset.
    pub(crate) fn of(plan: &Plan, chunk: u16, offset: u16) -> Result<Word, Refusal>
        ensures why { why_not result ≡ word_refusal (scheme_of plan.now) chunk offset None }
        ensures is { IfOk result (λ w. (w.plan ≡ plan.now) × (w.chunk ≡ chunk) × (w.offset ≡ offset)) }
    {
        let Some(cell) = plan.cell(chunk) else {
            return Err(Refusal::NoWord(1));
        };
        if offset >= plan.len {
            return Err(Refusal::NoWord(2));
        }
        Ok(Word {
            plan: *plan,
            chunk,
            cell,
            offset,
        })
    }

    /// The group of a kind that its chunk is of.
    pub(crate) fn group(&self, kind: Kind) -> u16
        ensures is { result ≡ group_of (scheme_of self.now.plan) kind self.now.chunk }
        ensures inside { result < groups (scheme_of self.now.plan) kind }
    {
        match kind {
            Kind::Stripe => self.chunk / self.plan.d,
            Kind::Row => self.cell.row,
        }
    }

    /// Where its chunk stands in that group.
    pub(crate) fn index(&self, kind: Kind) -> usize
        ensures is { result ≡ index_of (scheme_of self.now.plan) kind self.now.chunk }
        ensures inside { result < 14 }
    {
        match kind {
            Kind::Stripe => (self.chunk % self.plan.d) as usize,
            Kind::Row => self.cell.column as usize,
        }
    }
}
