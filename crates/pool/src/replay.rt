// Lists of calls, made of a pool one after another.
ghost use Rattle.std.specs.Prelude.{◌≡◌, ◌<◌, ◌≤◌, length, take, drop};
ghost use Rattle.pool.specs.Pools.{Obeys};
ghost use Rattle.pool.specs.Replays.{Replays};
ghost use Rattle.pool.specs.declared.kinds.Call.TheVariants.{Begin, Carry, Ready, Close, Drop};

use crate::kinds::{Answer, Call, Reply};
use crate::orders::{AnyOrder, Order, ReadyOrder};
use crate::pool::Pool;
use field::Field;
use rack::rack::Rack;

impl<F: Field, R: Rack> Pool<F, R> {
    /// Begins the changeover, and ends its order.
    fn begin_told(&mut self) -> Answer
        ensures { Obeys F.arithmetic R.valid R.meaning self.old self.new Begin result }
    {
        let order = self.begin()?;
        let _ = order.spend();
        Ok(Reply::Done)
    }

    /// Makes the changeover ready, with an order that stands in for the one that its begin gave.
    fn ready_told(&self) -> Answer
        ensures { Obeys F.arithmetic R.valid R.meaning self.now self.now Ready result }
    {
        match self.ready(Order::of(0)) {
            Ok(order) => {
                let _ = order.spend();
                Ok(Reply::Done)
            }
            Err((order, refusal)) => {
                let _ = order.spend();
                Err(refusal)
            }
        }
    }

    /// Closes the changeover, with a ready order that stands in.
    fn close_told(&mut self) -> Answer
        ensures { Obeys F.arithmetic R.valid R.meaning self.old self.new Close result }
    {
        match self.close(ReadyOrder::of(0)) {
            Ok(()) => Ok(Reply::Done),
            Err((order, refusal)) => {
                let _ = order.spend();
                Err(refusal)
            }
        }
    }

    /// Carries a stripe, with an order that stands in.
    fn carry_told(&mut self) -> Answer
        ensures { Obeys F.arithmetic R.valid R.meaning self.old self.new Carry result }
    {
        let order = Order::of(0);
        let counts = self.carry(&order);
        let _ = order.spend();
        let (data, parities) = counts?;
        Ok(Reply::Carried(data, parities))
    }

    /// Gives the changeover up, with an order that stands in.
    fn drop_told(&mut self) -> Answer
        ensures { Obeys F.arithmetic R.valid R.meaning self.old self.new Drop result }
    {
        self.drop(AnyOrder::Begun(Order::of(0)));
        Ok(Reply::Done)
    }

    /// Makes a call. An order bears no mark of its pool, so that any order stands in where the call takes one.
    fn perform(&mut self, call: Call) -> Answer
        ensures { Obeys F.arithmetic R.valid R.meaning self.old self.new call result }
    {
        match call {
            Call::Read(chunk, offset) => self.read(chunk, offset).map(Reply::Symbol),
            Call::Write(chunk, offset, symbol) => {
                self.write(chunk, offset, symbol).map(|()| Reply::Done)
            }
            Call::Pull(module) => self.pull(module).map(|()| Reply::Done),
            Call::Refit(module) => self.refit(module).map(|()| Reply::Done),
            Call::Begin => self.begin_told(),
            Call::Carry => self.carry_told(),
            Call::Ready => self.ready_told(),
            Call::Close => self.close_told(),
            Call::Drop => self.drop_told(),
        }
    }

    /// Makes a list of calls of the pool, one after another, and writes what each answers into `told`. Where the list is longer
    /// than `told`, the calls that there is no room for are not made; where it is shorter, the rest of `told` stays.
    pub fn replay(&mut self, calls: &[Call], told: &mut [Answer])
        ensures plays { Replays F.arithmetic R.valid R.meaning self.old self.new (take (length told.old) calls.now) (take (length calls.now) told.new) }
        ensures rest { drop (length calls.now) told.new ≡ drop (length calls.now) told.old }
        ensures long { length told.new ≡ length told.old }
    {
        let count = calls.len().min(told.len());
        for (i, call) in calls[..count].iter().enumerate() {
            told[i] = self.perform(*call);
        }
    }
}
