// A rack that lies flat in one lent row of cells.
ghost use Rattle.std.specs.Prelude.{◌≡◌, if◌then◌else◌, None, MatchBool, MatchResult, slice_set};
ghost use Rattle.rack.specs.Shaped.{full};
ghost use Rattle.rack.specs.Flat.{at, flat, flat_refusal, Blanked, flat_bounded, Sound, meaning_of};
ghost use Rattle.rack.specs.Meaning.{Puts, Pulls, Fits};

use crate::cells::{clear, module_cells, place, slots_in_all};
use crate::rack::Rack;
use crate::shape::Shape;
use crate::size::Size;
use layout::refusal::Refusal;

/// A rack over lent cells: the symbols of a module lie slot after slot, and the modules one after another.
/// A number of the order or more means 0. What the cells of a module that is out hold is of no account.
#[derive(Drop)]
pub struct FlatRack<'a> {
    cells: &'a mut [u16],
    shape: Shape,
}

impl<'a> FlatRack<'a> {
    /// Says whether cells can serve as a rack of these numbers: they are in their bounds, and there is a cell for each offset.
    pub fn check(cells: &[u16], size: Size) -> Result<(), Refusal>
        ensures { MatchResult result (λ _. flat_refusal cells.now size ≡ None) (λ e. flat_refusal cells.now size ≡ Some e) }
    {
        let needed = slots_in_all(size) * usize::from(size.length);
        if size.is_fair() && cells.len() >= needed {
            Ok(())
        } else {
            Err(Refusal::UnfitMemory)
        }
    }

    /// Makes a rack of cells that the check does not refuse, with all modules fitted. It writes nothing.
    pub fn new(cells: &'a mut [u16], size: Size) -> FlatRack<'a>
        requires { flat_refusal cells.old size ≡ None }
        ensures valid { Sound result }
        ensures means { meaning_of result ≡ flat (full size) cells.old }
        ensures memory { result.cells.now ≡ cells.old }
    {
        FlatRack {
            cells,
            shape: Shape::new(size),
        }
    }

    /// Gives the lent cells back.
    pub fn into_cells(self) -> &'a mut [u16]
        ensures { result.now ≡ self.entry.cells.now }
    {
        let FlatRack { cells, shape: _ } = self;
        cells
    }
}

impl Rack for FlatRack<'_> {
    ghost valid = { Sound };

    ghost meaning = { meaning_of };

    ghost bounded = { λ f h. flat_bounded f.shape f.cells.now h };

    fn order(&self) -> u16 {
        self.shape.size.order
    }

    fn modules(&self) -> u16 {
        self.shape.size.modules
    }

    fn slots(&self) -> u16 {
        self.shape.size.slots
    }

    fn length(&self) -> u16 {
        self.shape.size.length
    }

    fn ask(&self, module: u16) -> bool {
        self.shape.fitted(module)
    }

    fn get(&self, module: u16, slot: u16, offset: u16) -> Option<u16> {
        if !self.shape.holds(module, slot, offset) {
            return None;
        }
        let at = place(self.shape.size, module, slot, offset);
        let number = *self.cells.get(at)?;
        Some(if number < self.shape.size.order {
            number
        } else {
            0
        })
    }

    fn put(&mut self, module: u16, slot: u16, offset: u16, symbol: u16) -> bool
        ensures puts { Sound self.old → Puts (meaning_of self.old) (meaning_of self.new) «module» slot offset symbol result × Sound self.new }
        ensures cells { self.new.cells.now ≡ (if result then slice_set self.old.cells.now (at self.old.shape.size «module» slot offset) symbol else self.old.cells.now) }
    {
        if !self.shape.takes(module, slot, offset, symbol) {
            return false;
        }
        let at = place(self.shape.size, module, slot, offset);
        if at >= self.cells.len() {
            return false;
        }
        self.cells[at] = symbol;
        true
    }

    fn pull(&mut self, module: u16) -> bool
        ensures pulls { Sound self.old → Pulls (meaning_of self.old) (meaning_of self.new) «module» result × Sound self.new }
        ensures cells { self.new.cells.now ≡ self.old.cells.now }
    {
        self.shape.mark(module, false)
    }

    fn fit(&mut self, module: u16) -> bool
        ensures fits { Sound self.old → Fits (meaning_of self.old) (meaning_of self.new) «module» result × Sound self.new }
        ensures cells { MatchBool result (Blanked self.old.shape.size «module» self.old.cells.now self.new.cells.now) (self.new.cells.now ≡ self.old.cells.now) }
    {
        let size = self.shape.size;
        if !self.shape.mark(module, true) {
            return false;
        }
        clear(self.cells, module_cells(size, module));
        true
    }
}
