// What the turning rack does with its pages.
ghost use Rattle.std.specs.Prelude.{◌≡◌, ℕ, ◌+◌, ◌*◌, ◌<◌, ◌≤◌, true, false, ◌≢◌, length, slice_index};
ghost use Rattle.rack.specs.Turning.{each_once};

use std::ops::Range;

/// Whether the first `pages` entries of a map hold each number below `pages` once.
pub(crate) fn all_once(map: &[u16], pages: usize) -> bool
    requires few { pages ≤ 2049 }
    requires entries { pages ≤ length map.now }
    ensures { result ≡ each_once map.now pages pages }
{
    let mut seen = [false; 2049];
    for entry in &map[..pages] {
        let page = usize::from(*entry);
        if page >= pages || seen[page] {
            return false;
        }
        seen[page] = true;
    }
    true
}

/// The cell of an offset of a page.
pub(crate) fn page_cell(page: u16, span: u16, offset: u16) -> usize
    ensures { result ≡ page * span + offset }
{
    usize::from(page) * usize::from(span) + usize::from(offset)
}

/// The cells of a page.
pub(crate) fn page_cells(page: u16, span: u16) -> Range<usize>
    ensures start { result.start ≡ page * span }
    ensures end { result.end ≡ page * span + span }
{
    page_cell(page, span, 0)..page_cell(page, span, span)
}

/// Writes a page anew into the spare one, with one symbol changed. False, and nothing done, where the cells do not hold two such pages.
/// It answers a bool since the trait's `put` does.
pub(crate) fn turn(
    cells: &mut [u16],
    page: u16,
    spare: u16,
    span: u16,
    offset: u16,
    symbol: u16,
) -> bool
    requires { offset < span }
    ensures answer { page ≢ spare → page * span + span ≤ length cells.old → spare * span + span ≤ length cells.old → result ≡ true }
    ensures changed { result ≡ true → slice_index cells.new (spare * span + offset) ≡ symbol }
    ensures copied { result ≡ true → (k : ℕ) → k < span → k ≢ offset → slice_index cells.new (spare * span + k) ≡ slice_index cells.old (page * span + k) }
    ensures kept { result ≡ true → (p k : ℕ) → k < span → p ≢ spare → slice_index cells.new (p * span + k) ≡ slice_index cells.old (p * span + k) }
    ensures none { result ≡ false → cells.new ≡ cells.old }
{
    let from = page_cells(page, span);
    let to = page_cells(spare, span);
    if page == spare || from.end > cells.len() || to.end > cells.len() {
        return false;
    }
    cells.copy_within(from, to.start);
    cells[page_cell(spare, span, offset)] = symbol;
    true
}
