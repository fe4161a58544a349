//! What is worked out once for a group that misses pieces.
ghost use Rattle.std.specs.Prelude.{ℕ, ◌<◌, ◌≤◌, slice_index};

use crate::group::Group;

/// How the missing chunks of a group follow from the first pieces that are left: all its other chunks, and as many of its
/// parities as chunks are missing.
// Arrays of four side by side with a count, since memory is fixed and the equations take plain arrays by value.
#[derive(Clone, Copy)]
pub struct Repair {
    /// the group, with the places of its pieces
    pub group: Group,
    /// whether each chunk of the group is missing
    pub gone: [bool; 14],
    /// how many chunks are missing
    pub count: usize,
    /// where they stand in the group
    pub missing: [u8; 4],
    /// the parities that are used
    pub parities: [u8; 4],
    /// the modules of these parities
    pub sources: [u16; 4],
    /// of each of these parities, the coefficients of the group's chunks
    pub coefficients: [[u16; 14]; 4],
    /// the coefficient columns of the missing chunks
    pub columns: [u8; 4],
    /// what each missing chunk takes of the sides of the equations
    pub inverse: [[u16; 4]; 4],
    ghost few: { count ≤ 4 },
    ghost inside: { (j : ℕ) → j < 4 → slice_index missing j < 14 },
}

/// The symbols of a group's pieces at one offset.
#[derive(Clone, Copy)]
pub struct GroupSymbols {
    /// those of its chunks, in their order, and zeros after them
    pub chunks: [u16; 14],
    /// those of the parities that were fetched to rebuild its missing chunks, by the numbers of the parities
    pub parities: [Option<u16>; 4],
}
