// What a changeover in hand is held by: an order from its begin on, and a ready order from its ready on.
ghost use Rattle.std.specs.Prelude.{◌≡◌};

/// A changeover in hand: `READY` says whether it may be closed. It cannot be let go: it is not `Drop`, so the check refuses a program
/// that lets one go. It bears no mark of its pool.
pub struct Changeover<const READY: bool> {
    /// how many stripes there were to carry
    stripes: u16,
}

/// A changeover that has begun. It is made ready or dropped.
pub type Order = Changeover<false>;

/// A changeover that may be closed. It is closed or dropped.
pub type ReadyOrder = Changeover<true>;

/// An order of either sort, to drop.
pub enum AnyOrder {
    Begun(Order),
    Made(ReadyOrder),
}

impl<const READY: bool> Changeover<READY> {
    /// An order for so many stripes.
    pub(crate) fn of(stripes: u16) -> Changeover<READY>
        ensures { result.stripes ≡ stripes }
    {
        Changeover { stripes }
    }

    /// Ends the order, and says its number.
    pub(crate) fn spend(self) -> u16
        ensures { result ≡ self.entry.stripes }
    {
        let Changeover { stripes } = self;
        stripes
    }

    /// How many stripes there were to carry when it was given.
    pub fn stripes(&self) -> u16
        ensures { result ≡ self.now.stripes }
    {
        self.stripes
    }
}

impl AnyOrder {
    /// Ends the order, whichever it is.
    pub(crate) fn spend(self) {
        let _ = match self {
            AnyOrder::Begun(order) => order.spend(),
            AnyOrder::Made(order) => order.spend(),
        };
    }
}
