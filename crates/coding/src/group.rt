//! Stripes and rows.
ghost use Rattle.std.specs.Prelude.{◌≡◌, ◌<◌, ◌≤◌, MatchOption};
ghost use Rattle.coding.specs.Groups.{groups, size, parities, slot_of};
ghost use Rattle.coding.specs.Pieces.{Grouped};
ghost use Rattle.coding.specs.Schemes.{scheme_of};

use crate::number::GroupNumber;
use layout::plan::Plan;

/// A group of chunks with parities: a stripe, as before the changeover, or a row, as after it.
#[derive(Clone, Copy, PartialEq, Eq, Debug)]
pub enum Kind {
    /// before the changeover
    Stripe,
    /// after it
    Row,
}

impl Kind {
    /// How many groups of this kind there are.
    pub fn groups(self, plan: &Plan) -> u16
        ensures { result ≡ groups (scheme_of plan.now) self }
    {
        match self {
            Kind::Stripe => plan.stripes(),
            Kind::Row => plan.rows(),
        }
    }

    /// How many chunks such a group has.
    pub fn size(self, plan: &Plan) -> u16
        ensures { result ≡ size (scheme_of plan.now) self }
    {
        match self {
            Kind::Stripe => plan.d,
            Kind::Row => plan.d2,
        }
    }

    /// How many parities such a group has.
    pub fn parities(self, plan: &Plan) -> u16
        ensures { result ≡ parities (scheme_of plan.now) self }
    {
        match self {
            Kind::Stripe => plan.r,
            Kind::Row => plan.r2,
        }
    }

    /// The slot of the parities of a group that is there.
    pub fn parity_slot(self, plan: &Plan, index: u16) -> u16
        ensures { index < groups (scheme_of plan.now) self → result ≡ slot_of (scheme_of plan.now) self index }
    {
        match self {
            Kind::Stripe => index,
            Kind::Row => plan.stripes().saturating_add(index),
        }
    }
}

/// A chunk of a group, and where it lies.
#[derive(Clone, Copy, PartialEq, Eq, Debug, Default)]
pub struct Piece {
    /// its module
    pub module: u16,
    /// its slot
    pub slot: u16,
    /// its coefficient column
    pub x: u8,
}

/// A stripe or a row, with the places of its pieces.
#[derive(Clone, Copy)]
pub struct Group {
    /// a stripe or a row
    pub kind: Kind,
    /// the number of the stripe or of the row
    pub index: u16,
    /// how many chunks it has; it stands beside an array of the largest size, since memory is fixed
    pub size: u16,
    /// how many parities it has
    pub parities: u16,
    /// the slot of its parities
    pub slot: u16,
    /// the module of its parity 0: parity k is on the k-th module after it
    pub first: u16,
    /// its chunks, in the order of the group, and zeros after them
    pub pieces: [Piece; 14],
}

impl Group {
    /// The group of a kind with a number; none where the plan has no such group.
    // The public calls take plan, kind and number, which a `GroupNumber` holds inside: a caller would make one at each call.
    pub fn of(plan: &Plan, kind: Kind, index: u16) -> Option<Group>
        ensures { MatchOption result (groups (scheme_of plan.now) kind ≤ index) (λ g. (index < groups (scheme_of plan.now) kind) × Grouped (scheme_of plan.now) kind index g) }
    {
        GroupNumber::new(plan, kind, index).map(|number| number.group())
    }
}
