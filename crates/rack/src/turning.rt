// A rack whose slots lie in pages of lent cells, and whose pages turn.
ghost use Rattle.std.specs.Prelude.{◌≡◌, true, false, None, MatchBool, MatchResult};
ghost use Rattle.rack.specs.Meaning.{Puts, Pulls, Fits};
ghost use Rattle.rack.specs.Shaped.{full};
ghost use Rattle.rack.specs.Turning.{turned, turn_refusal, Turns, PagesBlanked, turn_bounded, Sound, meaning_of};

use crate::cells::{clear, slot_number, slots_in_all};
use crate::pages::{all_once, page_cell, page_cells, turn};
use crate::rack::Rack;
use crate::shape::Shape;
use crate::size::Size;
use layout::refusal::Refusal;

/// A rack over lent cells and a lent map of pages, with one page more than it has slots. The map has the page of each slot,
/// module after module, and last the spare page. A write goes, with a copy of the rest of the slot's page, to the spare page,
/// and the old page is the next spare.
/// A number of the order or more means 0. What the pages of a module that is out hold is of no account.
#[derive(Drop)]
pub struct TurningRack<'a> {
    cells: &'a mut [u16],
    map: &'a mut [u16],
    shape: Shape,
}

impl<'a> TurningRack<'a> {
    /// Says whether cells and a map can serve as a rack of these numbers: they are in their bounds, there are cells for each page,
    /// and each page stands once in the map.
    pub fn check(cells: &[u16], map: &[u16], size: Size) -> Result<(), Refusal>
        ensures { MatchResult result (λ _. turn_refusal cells.now map.now size ≡ None) (λ e. turn_refusal cells.now map.now size ≡ Some e) }
    {
        let pages = slots_in_all(size) + 1;
        if size.is_fair()
            && cells.len() >= pages * usize::from(size.length)
            && map.len() >= pages
            && all_once(map, pages)
        {
            Ok(())
        } else {
            Err(Refusal::UnfitMemory)
        }
    }

    /// Makes a rack of cells and a map that the check does not refuse, with all modules fitted. It writes nothing.
    pub fn new(cells: &'a mut [u16], map: &'a mut [u16], size: Size) -> TurningRack<'a>
        requires { turn_refusal cells.old map.old size ≡ None }
        ensures valid { Sound result }
        ensures means { meaning_of result ≡ turned (full size) map.old cells.old }
        ensures memory { (result.cells.now ≡ cells.old) × (result.map.now ≡ map.old) }
    {
        TurningRack {
            cells,
            map,
            shape: Shape::new(size),
        }
    }

    /// Gives the lent cells and the lent map back.
    pub fn into_parts(self) -> (&'a mut [u16], &'a mut [u16])
        ensures { (result.0.now ≡ self.entry.cells.now) × (result.1.now ≡ self.entry.map.now) }
    {
        let TurningRack {
            cells,
            map,
            shape: _,
        } = self;
        (cells, map)
    }
}

impl Rack for TurningRack<'_> {
    ghost valid = { Sound };

    ghost meaning = { meaning_of };

    ghost bounded = { λ f h. turn_bounded f.shape f.map.now f.cells.now h };

    fn order(&self) -> u16 {
        self.shape.size.order
    }

    fn modules(&self) -> u16 {
        self.shape.size.modules
    }

    fn slots(&self) -> u16 {
        self.shape.size.slots
    }

    fn length(&self) -> u16 {
        self.shape.size.length
    }

    // This, the four above and `pull` read as those of a flat rack: each is one field or one call of the shape that both have. To give
    // them in the trait, every rack would have to have a shape.
    fn ask(&self, module: u16) -> bool {
        self.shape.fitted(module)
    }

    fn get(&self, module: u16, slot: u16, offset: u16) -> Option<u16> {
        if !self.shape.holds(module, slot, offset) {
            return None;
        }
        let size = self.shape.size;
        let page = *self.map.get(slot_number(size, module, slot))?;
        let number = *self.cells.get(page_cell(page, size.length, offset))?;
        Some(if number < size.order { number } else { 0 })
    }

    fn put(&mut self, module: u16, slot: u16, offset: u16, symbol: u16) -> bool
        ensures puts { Sound self.old → Puts (meaning_of self.old) (meaning_of self.new) «module» slot offset symbol result × Sound self.new }
        ensures turns { result ≡ true → Turns self.old.shape.size self.old.map.now self.new.map.now self.old.cells.now self.new.cells.now «module» slot offset symbol }
        ensures kept { result ≡ false → (self.new.cells.now ≡ self.old.cells.now) × (self.new.map.now ≡ self.old.map.now) }
    {
        let size = self.shape.size;
        let last = slots_in_all(size);
        if !self.shape.takes(module, slot, offset, symbol) || last >= self.map.len() {
            return false;
        }
        let entry = slot_number(size, module, slot);
        let page = self.map[entry];
        let spare = self.map[last];
        if !turn(self.cells, page, spare, size.length, offset, symbol) {
            return false;
        }
        self.map.swap(entry, last);
        true
    }

    fn pull(&mut self, module: u16) -> bool
        ensures pulls { Sound self.old → Pulls (meaning_of self.old) (meaning_of self.new) «module» result × Sound self.new }
        ensures kept { (self.new.cells.now ≡ self.old.cells.now) × (self.new.map.now ≡ self.old.map.now) }
    {
        self.shape.mark(module, false)
    }

    fn fit(&mut self, module: u16) -> bool
        ensures fits { Sound self.old → Fits (meaning_of self.old) (meaning_of self.new) «module» result × Sound self.new }
        ensures cells { MatchBool result (PagesBlanked self.old.shape.size «module» self.old.map.now self.old.cells.now self.new.cells.now) (self.new.cells.now ≡ self.old.cells.now) }
        ensures map { self.new.map.now ≡ self.old.map.now }
    {
        let size = self.shape.size;
        let first = slot_number(size, module, 0);
        let end = slot_number(size, module, size.slots);
        if end > self.map.len() {
            return false;
        }
        if !self.shape.mark(module, true) {
            return false;
        }
        // By index: the borrow checker does not cover a loop over `&self.map[first..end]` that writes `self.cells` (five forms tried).
        for entry in first..end {
            let page = self.map[entry];
            clear(self.cells, page_cells(page, size.length));
        }
        true
    }
}
