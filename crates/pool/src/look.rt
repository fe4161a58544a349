// What can be seen of a pool without calling it.
ghost use Rattle.std.specs.Prelude.{◌≡◌};

use crate::kinds::Phase;
use crate::pool::Pool;
use field::Field;
use layout::plan::Plan;
use rack::rack::Rack;

impl<F: Field, R: Rack> Pool<F, R> {
    /// The plan that the pool was laid or opened by.
    pub fn plan(&self) -> Plan
        ensures { result ≡ self.now.plan }
    {
        self.plan
    }

    /// Where the pool stands with its changeover.
    pub fn phase(&self) -> Phase
        ensures { result ≡ self.now.phase }
    {
        self.phase
    }

    /// How many stripes are carried. Outside a changeover, what the last one left.
    pub fn carried(&self) -> u16
        ensures { result ≡ self.now.carried }
    {
        self.carried
    }

    /// The rack, to look at.
    pub fn rack(&self) -> &R
        ensures { result.now ≡ self.now.rack }
    {
        &self.rack
    }
}
