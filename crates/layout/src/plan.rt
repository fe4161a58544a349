// A plan: the numbers of a rebuild, checked once.
ghost use Rattle.std.specs.Prelude.{◌+◌, ◌*◌, ◌≤◌};
ghost use Rattle.layout.specs.Placing.{spread_of};
ghost use Rattle.layout.specs.Sizes.{Within};

/// The numbers of a rebuild. A plan that exists has them in range, has parities enough for the loss of any one module, and
/// has a point of the field for every parity and coefficient column.
#[derive(Clone, Copy)]
pub struct Plan {
    /// q, the order of the field
    pub order: u16,
    /// data chunks of a stripe, before the changeover
    pub d: u16,
    /// parities of a stripe
    pub r: u16,
    /// data chunks of a row, after the changeover
    pub d2: u16,
    /// parities of a row
    pub r2: u16,
    /// L, the symbols of a chunk
    pub len: u16,
    ghost data_range: { Within 2 14 d },
    ghost parity_range: { Within 1 4 r },
    ghost data2_range: { Within 2 14 d2 },
    ghost parity2_range: { Within 1 4 r2 },
    ghost len_range: { Within 1 4096 len },
    ghost losses: { spread_of d d2 ≤ r },
    ghost points: { 4 + spread_of d d2 * d2 ≤ order },
}

/// The cell of a chunk: its row, which is its slot, and its column, which is its module. x is its coefficient column.
#[derive(Clone, Copy, PartialEq, Eq, Debug)]
pub struct Cell {
    pub row: u16,
    pub column: u16,
    pub x: u16,
}

/// Where a piece lies in the rack.
#[derive(Clone, Copy, PartialEq, Eq, Debug)]
pub struct Place {
    pub module: u16,
    pub slot: u16,
}
