// Modules that are pulled.
ghost use Rattle.pool.specs.Pools.{Obeys};
ghost use Rattle.pool.specs.Results.{of_done};
ghost use Rattle.pool.specs.declared.kinds.Call.TheVariants.{Pull};

use crate::pool::Pool;
use field::Field;
use layout::refusal::Refusal;
use rack::rack::Rack;

impl<F: Field, R: Rack> Pool<F, R> {
    /// Takes a module out. A changeover that is under way is voided by it. Refused where there is no such module, and where it is
    /// out already.
    pub fn pull(&mut self, module: u16) -> Result<(), Refusal>
        ensures { Obeys F.arithmetic R.valid R.meaning self.old self.new (Pull «module») (of_done result) }
    {
        if module >= self.plan.modules() {
            return Err(Refusal::NoModule(module));
        }
        if !self.rack.pull(module) {
            return Err(Refusal::AlreadySo(module));
        }
        self.phase = self.phase.pulled();
        Ok(())
    }
}
