// The four numbers of a rack.
ghost use Rattle.std.specs.Prelude.{◌≡◌};
ghost use Rattle.rack.specs.Laid.{fair};

/// The four numbers of a rack, which never change: how many symbols there are, how many modules, how many slots a module has,
/// and how many offsets a slot has.
#[derive(Clone, Copy, PartialEq, Eq, Debug)]
pub struct Size {
    pub order: u16,
    pub modules: u16,
    pub slots: u16,
    pub length: u16,
}

impl Size {
    /// Whether the numbers are in their bounds: an order of 2 or more, and one to 32 modules of one to 64 slots of one to 4096 offsets.
    pub fn is_fair(&self) -> bool
        ensures { result ≡ fair self.now }
    {
        self.order >= 2
            && (1..=32).contains(&self.modules)
            && (1..=64).contains(&self.slots)
            && (1..=4096).contains(&self.length)
    }
}
