//! The number of a group that is there.
ghost use Rattle.std.specs.Prelude.{◌≡◌, ◌<◌, ◌≤◌, MatchOption};
ghost use Rattle.coding.specs.Groups.{groups, size, chunk_of};
ghost use Rattle.coding.specs.Pieces.{Celled, Grouped, PieceAt};
ghost use Rattle.coding.specs.Schemes.{scheme_of};

use crate::group::{Group, Kind, Piece};
use layout::plan::{Cell, Plan};
use std::array;

/// The number of a group of a kind that the plan has.
#[derive(Drop)]
pub(crate) struct GroupNumber<'a> {
    plan: &'a Plan,
    kind: Kind,
    index: u16,
    ghost inside: { index < groups (scheme_of plan.now) kind },
}

impl<'a> GroupNumber<'a> {
    /// The number `index`, where the plan has such a group.
    pub(crate) fn new(plan: &'a Plan, kind: Kind, index: u16) -> Option<Self>
        ensures { MatchOption result (groups (scheme_of plan.now) kind ≤ index) (λ n. (n.plan.now ≡ plan.now) × (n.kind ≡ kind) × (n.index ≡ index)) }
    {
        if index < kind.groups(plan) {
            Some(GroupNumber { plan, kind, index })
        } else {
            None
        }
    }

    /// The number of chunk `e` of the group.
    fn chunk(&self, e: u16) -> u16
        requires { e < size (scheme_of self.now.plan.now) self.now.kind }
        ensures { result ≡ chunk_of (scheme_of self.now.plan.now) self.now.kind self.now.index e }
    {
        match self.kind {
            Kind::Stripe => self.index * self.plan.d + e,
            Kind::Row => self.plan.chunk_at(self.index, e).unwrap(),
        }
    }

    /// The cell of chunk `e` of the group.
    fn cell(&self, e: u16) -> Cell
        requires { e < size (scheme_of self.now.plan.now) self.now.kind }
        ensures is { Celled (scheme_of self.now.plan.now) self.now.kind self.now.index e result }
        ensures small { result.x < 28 }
    {
        self.plan.cell(self.chunk(e)).unwrap()
    }

    /// Chunk `e` of the group; zeros where the group has no such chunk.
    fn piece(&self, e: usize) -> Piece
        requires { e < 14 }
        ensures { PieceAt (scheme_of self.now.plan.now) self.now.kind self.now.index e result }
    {
        if e < usize::from(self.kind.size(self.plan)) {
            let cell = self.cell(e as u16);
            Piece {
                module: cell.column,
                slot: cell.row,
                x: cell.x as u8,
            }
        } else {
            Piece::default()
        }
    }

    /// The group.
    pub(crate) fn group(&self) -> Group
        ensures { Grouped (scheme_of self.now.plan.now) self.now.kind self.now.index result }
    {
        Group {
            kind: self.kind,
            index: self.index,
            size: self.kind.size(self.plan),
            parities: self.kind.parities(self.plan),
            slot: self.kind.parity_slot(self.plan, self.index),
            first: self.plan.d2,
            pieces: array::from_fn(|e| self.piece(e)),
        }
    }
}
