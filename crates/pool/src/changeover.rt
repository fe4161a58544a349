// The changeover: begun, made ready, closed or dropped.
ghost use Rattle.std.specs.Prelude.{◌≡◌, IfOk, IfErr, Ok, None};
ghost use Rattle.layout.specs.Placing.{stripes_of};
ghost use Rattle.pool.specs.Asked.{refusal_of};
ghost use Rattle.pool.specs.Book.{under_way_refusal};
ghost use Rattle.pool.specs.Openings.{why_not};
ghost use Rattle.pool.specs.Pools.{Obeys};
ghost use Rattle.pool.specs.Results.{of_done, of_order};
ghost use Rattle.pool.specs.declared.kinds.Reply.TheVariants.{Done};
ghost use Rattle.pool.specs.declared.kinds.Call.TheVariants.{Begin, Ready, Close, Drop};

use crate::kinds::Phase;
use crate::orders::{AnyOrder, Order, ReadyOrder};
use crate::pool::Pool;
use crate::sweep::{all_fitted, clear_block};
use field::Field;
use layout::refusal::Refusal;
use rack::rack::Rack;

/// Whether a changeover is under way.
pub(crate) fn under_way(phase: Phase) -> Result<(), Refusal>
    ensures { why_not result ≡ under_way_refusal phase None }
{
    match phase {
        Phase::UnderWay => Ok(()),
        Phase::Voided => Err(Refusal::ChangeoverVoided),
        Phase::Before | Phase::After => Err(Refusal::WrongPhase(u16::from(phase))),
    }
}

impl<F: Field, R: Rack> Pool<F, R> {
    /// Whether a changeover can begin.
    fn can_begin(&self) -> Result<(), Refusal>
        ensures { R.valid self.now.rack → why_not result ≡ refusal_of F.arithmetic R.valid R.meaning self.now Begin }
    {
        if self.phase != Phase::Before {
            return Err(Refusal::WrongPhase(u16::from(self.phase)));
        }
        all_fitted(&self.rack, self.plan.modules())
    }

    /// Whether the changeover can be made ready, and closed.
    fn can_close(&self) -> Result<(), Refusal>
        ensures { why_not result ≡ refusal_of F.arithmetic R.valid R.meaning self.now Close }
    {
        under_way(self.phase)?;
        if self.carried < self.plan.stripes() {
            return Err(Refusal::WrongCount(self.carried));
        }
        Ok(())
    }

    /// Begins the changeover: the staged parities of all rows are 0, and no stripe is carried. Refused where a changeover is under
    /// way, voided or done, and where one of the modules is out.
    pub fn begin(&mut self) -> Result<Order, Refusal>
        ensures book { Obeys F.arithmetic R.valid R.meaning self.old self.new Begin (of_done result) }
        ensures number { IfOk result (λ o. o.stripes ≡ stripes_of self.old.plan.d self.old.plan.d2) }
    {
        self.can_begin()?;
        let plan = self.plan;
        let stripes = plan.stripes();
        let slots = plan.slots();
        clear_block(
            &mut self.rack,
            plan.d2,
            plan.d2 + plan.r2,
            stripes,
            slots,
            plan.len,
        );
        self.phase = Phase::UnderWay;
        self.carried = 0;
        Ok(Order::of(stripes))
    }

    /// Makes the changeover ready to be closed. Refused where none is under way, where it is voided, and where not every stripe is
    /// carried; a refusal hands the order back.
    pub fn ready(&self, order: Order) -> Result<ReadyOrder, (Order, Refusal)>
        ensures book { Obeys F.arithmetic R.valid R.meaning self.now self.now Ready (of_order result) }
        ensures back { IfErr result (λ e. e.0 ≡ order) }
        ensures number { IfOk result (λ o. o.stripes ≡ order.stripes) }
    {
        if let Err(refusal) = self.can_close() {
            return Err((order, refusal));
        }
        Ok(ReadyOrder::of(order.spend()))
    }

    /// Closes the changeover: from here on the parities of the rows are those that count. Refused where `ready` is; a refusal
    /// hands the order back.
    pub fn close(&mut self, order: ReadyOrder) -> Result<(), (ReadyOrder, Refusal)>
        ensures book { Obeys F.arithmetic R.valid R.meaning self.old self.new Close (of_order result) }
        ensures back { IfErr result (λ e. e.0 ≡ order) }
    {
        if let Err(refusal) = self.can_close() {
            return Err((order, refusal));
        }
        let _ = order.spend();
        self.phase = Phase::After;
        Ok(())
    }

    /// Gives the changeover up, whether it is under way or voided, and ends its order. It is never refused.
    pub fn drop(&mut self, order: AnyOrder)
        ensures { Obeys F.arithmetic R.valid R.meaning self.old self.new Drop (Ok Done) }
    {
        order.spend();
        self.phase = self.phase.dropped();
    }
}
