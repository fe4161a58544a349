// What every rack does.
ghost use Rattle.std.specs.Prelude.{◌≡◌};
ghost use Rattle.rack.specs.Meaning.{Meaning, Bounded, symbol_at, pulls, Puts, Pulls, Fits};

/// A memory of modules, slots and offsets: at each place of a module that is fitted lies a symbol below the order.
// `put`, `pull` and `fit` answer a bool, since the rules of a rack give no reason where nothing is done; and calls take plain numbers
// for a place, since a place as a struct would be made at each call and taken apart in it.
pub trait Rack {
    // What the rack keeps true of itself, from its making on.
    ghost valid: { Self → Type 0 };

    // What it holds.
    ghost meaning: { Self → Meaning };

    ghost bounded: { (x : Self) → valid x → Bounded (meaning x) };

    /// How many symbols there are: each is below this number.
    fn order(&self) -> u16
        ensures { result ≡ (meaning self.now).order };

    /// How many modules there are.
    fn modules(&self) -> u16
        ensures { result ≡ (meaning self.now).modules };

    /// How many slots a module has.
    fn slots(&self) -> u16
        ensures { result ≡ (meaning self.now).slots };

    /// How many offsets a slot has.
    fn length(&self) -> u16
        ensures { result ≡ (meaning self.now).length };

    /// Whether a module is fitted. One outside the rack is not.
    fn ask(&self, module: u16) -> bool
        ensures { valid self.now → result ≡ pulls (meaning self.now) «module» };

    /// The symbol at a place; none where the place is outside or its module out.
    fn get(&self, module: u16, slot: u16, offset: u16) -> Option<u16>
        ensures { valid self.now → result ≡ symbol_at (meaning self.now) «module» slot offset };

    /// Stores a symbol at a place. False, and nothing done, where the place is outside, its module out, or the symbol not below the order.
    fn put(&mut self, module: u16, slot: u16, offset: u16, symbol: u16) -> bool
        ensures { valid self.old → Puts (meaning self.old) (meaning self.new) «module» slot offset symbol result × valid self.new };

    /// Takes a module out. False, and nothing done, where it is outside or out already.
    fn pull(&mut self, module: u16) -> bool
        ensures { valid self.old → Pulls (meaning self.old) (meaning self.new) «module» result × valid self.new };

    /// Puts a module that is out back, all zero. False, and nothing done, where it is outside or fitted.
    fn fit(&mut self, module: u16) -> bool
        ensures { valid self.old → Fits (meaning self.old) (meaning self.new) «module» result × valid self.new };
}
