// What both racks do with their cells and numbers.
ghost use Rattle.std.specs.Prelude.{◌≡◌, ℕ, ◌+◌, ◌*◌, ◌<◌, ◌≤◌, slice_index};
ghost use Rattle.rack.specs.Flat.{at};

use crate::size::Size;
use std::ops::Range;

/// The number of a slot, counted module after module.
pub(crate) fn slot_number(size: Size, module: u16, slot: u16) -> usize
    ensures { result ≡ «module» * size.slots + slot }
{
    usize::from(module) * usize::from(size.slots) + usize::from(slot)
}

/// Where a symbol lies in a row of slots.
pub(crate) fn place(size: Size, module: u16, slot: u16, offset: u16) -> usize
    ensures { result ≡ at size «module» slot offset }
{
    slot_number(size, module, slot) * usize::from(size.length) + usize::from(offset)
}

/// How many slots there are in all.
pub(crate) fn slots_in_all(size: Size) -> usize
    ensures { result ≡ size.modules * size.slots }
{
    usize::from(size.modules) * usize::from(size.slots)
}

/// The cells of a module, where the modules lie one after another.
pub(crate) fn module_cells(size: Size, module: u16) -> Range<usize>
    ensures start { result.start ≡ «module» * (size.slots * size.length) }
    ensures end { result.end ≡ «module» * (size.slots * size.length) + size.slots * size.length }
{
    let count = usize::from(size.slots) * usize::from(size.length);
    let start = usize::from(module) * count;
    start..start + count
}

/// Writes 0 into each cell of a range. What of the range lies past the last cell is of no account.
#[tactic(auto, using(std::proofs::lemmas::List::places))]
pub(crate) fn clear(cells: &mut [u16], range: Range<usize>)
    ensures zero { (k : ℕ) → range.start ≤ k → k < range.end → slice_index cells.new k ≡ 0 }
    ensures below { (k : ℕ) → k < range.start → slice_index cells.new k ≡ slice_index cells.old k }
    ensures above { (k : ℕ) → range.end ≤ k → slice_index cells.new k ≡ slice_index cells.old k }
{
    let end = range.end.min(cells.len());
    cells[range.start.min(end)..end].fill(0);
}
