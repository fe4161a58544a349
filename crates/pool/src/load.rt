// What is worked out once for a stripe that is carried.
use coding::group::Group;
use layout::plan::Plan;

/// A stripe that is carried, with all that its carrying needs besides the rack.
#[derive(Clone, Copy)]
pub(crate) struct Load {
    pub(crate) plan: Plan,
    /// the stripe, with the places of its chunks
    pub(crate) group: Group,
    /// its home row
    pub(crate) home: u16,
    /// the slot of the staged parities of row 0
    pub(crate) base: u16,
    /// how many rows there are
    pub(crate) rows: u16,
    /// of each row, whether carrying the stripe adds to its staged parities
    pub(crate) touched: [bool; 14],
    /// of each parity, the coefficients of the stripe's chunks
    pub(crate) weights: [[u16; 14]; 4],
}
