// The numbers and the flags that both racks keep.
ghost use Rattle.std.specs.Prelude.{◌≡◌, ◌&&◌, ltb, if◌then◌else◌, nat_lt};
ghost use Rattle.rack.specs.Laid.{inside};
ghost use Rattle.rack.specs.Shaped.{full, marked, is_marked, is_unlike};

use crate::size::Size;

/// The numbers of a rack, and which of its modules are fitted.
#[derive(Drop)]
pub struct Shape {
    pub size: Size,
    pub on: [bool; 32],
}

impl Shape {
    /// A rack's numbers, with all modules fitted.
    pub fn new(size: Size) -> Shape
        ensures { result ≡ full size }
    {
        Shape {
            size,
            on: [true; 32],
        }
    }

    /// Whether a module is fitted.
    pub fn fitted(&self, module: u16) -> bool
        ensures { result ≡ is_marked self.now «module» }
    {
        module < self.size.modules && module < 32 && self.on[usize::from(module)]
    }

    /// Whether a place is inside, in a module that is fitted.
    pub fn holds(&self, module: u16, slot: u16, offset: u16) -> bool
        ensures { result ≡ (ltb «module» 32 && inside self.now «module» slot offset) }
    {
        slot < self.size.slots && offset < self.size.length && self.fitted(module)
    }

    /// Whether a symbol may be stored at a place.
    pub fn takes(&self, module: u16, slot: u16, offset: u16, symbol: u16) -> bool
        ensures { result ≡ ((ltb «module» 32 && inside self.now «module» slot offset) && nat_lt symbol self.now.size.order) }
    {
        symbol < self.size.order && self.holds(module, slot, offset)
    }

    /// Marks a module as fitted or as out. False, and nothing done, where it is outside or so already.
    /// It answers a bool since the trait's `pull` and `fit` do.
    pub fn mark(&mut self, module: u16, fitted: bool) -> bool
        ensures answer { result ≡ is_unlike self.old «module» fitted }
        ensures after { self.new ≡ (if result then marked self.old «module» fitted else self.old) }
    {
        if module < self.size.modules && module < 32 && self.on[usize::from(module)] != fitted {
            self.on[usize::from(module)] = fitted;
            true
        } else {
            false
        }
    }
}
