// Carrying a stripe: its chunks go into the staged parities of their rows.
ghost use Rattle.std.specs.Prelude.{◌≡◌, ℕ, ◌+◌, ◌<◌, ◌≤◌, false, not, [], None, MatchOption, ◌==◌, slice_index, slice_index_or};
ghost use Rattle.coding.specs.Groups.{count};
ghost use Rattle.coding.specs.declared.group.Kind.TheVariants.{Stripe};
ghost use Rattle.coding.specs.Pieces.{Grouped, Weights, slot_at};
ghost use Rattle.coding.specs.Schemes.{scheme_of};
ghost use Rattle.pool.specs.Book.{carried_data, carried_parities};
ghost use Rattle.pool.specs.Effects.{changed, carried_symbol, chunk_in, chunks_at, outside_row, own_row};
ghost use Rattle.pool.specs.Growth.{Adds, Amounts, Grows, Loaded, Shares, Whole, chunk_gain, home_gain, stripe_gain, to_row, touches};
ghost use Rattle.pool.specs.Pools.{Obeys};
ghost use Rattle.pool.specs.Results.{of_counts};
ghost use Rattle.pool.specs.declared.kinds.Call.TheVariants.{Carry};

use crate::adding::add_at;
use crate::changeover::under_way;
use crate::load::Load;
use crate::orders::Order;
use crate::pool::Pool;
use coding::group::{Group, Kind};
use field::Field;
use layout::plan::Plan;
use layout::refusal::Refusal;
use rack::rack::Rack;
use rack::symbol;
use std::array;

/// What a stripe adds at an offset: of each row, to each of its staged parities.
type Gains = [[u16; 4]; 14];

/// What subtracting each share adds.
fn negated<F: Field>(field: &F, shares: [u16; 4]) -> [u16; 4]
    ensures { (k : ℕ) → k < 4 → slice_index result k ≡ (F.arithmetic field.now).neg (slice_index shares k) }
{
    array::from_fn(|k| field.neg(shares[k]))
}

/// The sums of two lists, place by place.
fn sums<F: Field>(field: &F, a: [u16; 4], b: [u16; 4]) -> [u16; 4]
    ensures { (k : ℕ) → k < 4 → slice_index result k ≡ (F.arithmetic field.now).add (slice_index a k) (slice_index b k) }
{
    array::from_fn(|k| field.add(a[k], b[k]))
}

/// Adds shares to the gains of a row.
fn add_shares<F: Field>(field: &F, gains: &mut Gains, row: u16, shares: [u16; 4])
    requires inside { row < 14 }
    ensures { Adds (F.arithmetic field.now) 4 14 (to_row row shares) gains.old gains.new }
{
    let more = sums(field, gains[row as usize], shares);
    gains[row as usize] = more;
}

/// The coefficients of the stripe's chunks in each parity.
fn weights_of<F: Field>(field: &F, group: &Group) -> [[u16; 14]; 4]
    ensures { (k : ℕ) → k < 4 → Weights (F.arithmetic field.now) group.now k (slice_index_or result k []) }
{
    [0, 1, 2, 3].map(
        |k: u8| -> [u16; 14]
            ensures { Weights (F.arithmetic field.entry.now) group.entry.now k result }
        { group.weights(field, k) },
    )
}

/// Which rows the stripe touches: its home row where that is given its parities, and the rows of its chunks.
fn touched_rows(plan: &Plan, group: &Group, home: u16) -> [bool; 14]
    requires inside { group.now.index < (scheme_of plan.now).stripes }
    requires grouped { Grouped (scheme_of plan.now) Stripe group.now.index group.now }
    requires home { home ≡ (scheme_of plan.now).home group.now.index }
    ensures { (h : ℕ) → h < (scheme_of plan.now).rows → slice_index_or result h false ≡ touches (scheme_of plan.now) group.now.index h }
{
    let mut touched = [false; 14];
    touched[home as usize] = plan.r2 <= plan.r;
    for piece in &group.pieces[..usize::from(group.size)] {
        touched[usize::from(piece.slot)] = true;
    }
    touched
}

/// A stripe that is carried, over its field. What is worked out for it is that of its plan.
#[derive(Drop)]
struct Carrying<'a, F: Field> {
    field: &'a F,
    load: Load,
    ghost loaded: { Loaded (F.arithmetic field.now) load },
}

impl<'a, F: Field> Carrying<'a, F> {
    /// What carrying a stripe needs; none where the plan has no such stripe.
    fn of(field: &'a F, plan: &Plan, stripe: u16) -> Option<Self>
        ensures { MatchOption result ((scheme_of plan.now).stripes ≤ stripe) (λ c. (c.field.now ≡ field.now) × (c.load.plan ≡ plan.now) × (c.load.group.index ≡ stripe)) }
    {
        let group = Group::of(plan, Kind::Stripe, stripe)?;
        let home = plan.home(stripe)?;
        let load = Load {
            plan: *plan,
            group,
            home,
            base: plan.stripes(),
            rows: plan.rows(),
            touched: touched_rows(plan, &group, home),
            weights: weights_of(field, &group),
        };
        Some(Carrying { field, load })
    }

    /// Adds to the staged parities of a row at an offset, to each its share.
    fn add_to_row<R: Rack>(&self, rack: &mut R, row: u16, offset: u16, shares: &[u16; 4])
        requires { row < (scheme_of self.now.load.plan).rows }
        ensures { Grows R.valid R.meaning (F.arithmetic self.now.field.now) (scheme_of self.now.load.plan) rack.old rack.new offset (to_row row shares.now) }
    {
        let slot = self.load.base + row;
        // k is the parity that the contract speaks of, and numbers a module and a share: a `zip` of the two would hide it
        for k in 0..self.load.plan.r2 {
            let module = self.load.plan.d2 + k;
            add_at(rack, self.field, module, slot, offset, shares[k as usize]);
        }
    }

    /// What chunk `e` of the stripe adds at an offset to each parity of its row, as many as a row has. The chunk is fetched once.
    // The rack, the chunk and the offset go from call to call to this one: a struct of the three would lend the rack for as long as it
    // lives, and the gains beside it go in and out, so it would be no plainer.
    fn shares_at<R: Rack>(&self, rack: &R, e: usize, offset: u16) -> [u16; 4]
        requires { e < self.now.load.group.size }
        ensures { R.valid rack.now → Shares (F.arithmetic self.now.field.now) self.now.load e (chunks_at (scheme_of self.now.load.plan) (R.meaning rack.now) offset (chunk_in (scheme_of self.now.load.plan) self.now.load.group.index e)) result }
    {
        let piece = self.load.group.pieces[e];
        let value = symbol(rack, piece.module, piece.slot, offset);
        let field = self.field;
        let weights = &self.load.weights;
        let count = usize::from(self.load.plan.r2);
        array::from_fn(
            |k: usize| -> u16
                requires row { k < 4 }
                requires column { e < 14 }
                ensures { k < count → result ≡ (F.arithmetic field.entry.now).mul (slice_index (slice_index_or weights.entry.now k []) e) value }
            {
                if k < count {
                    field.mul(weights[k][e], value)
                } else {
                    0
                }
            },
        )
    }

    /// Adds chunk `e` of the stripe to the gains of its own row.
    fn add_chunk<R: Rack>(&self, rack: &R, gains: &mut Gains, e: usize, offset: u16)
        requires { e < self.now.load.group.size }
        ensures { R.valid rack.now → Adds (F.arithmetic self.now.field.now) (scheme_of self.now.load.plan).r' (scheme_of self.now.load.plan).rows (λ k h. own_row (F.arithmetic self.now.field.now) (scheme_of self.now.load.plan) self.now.load.group.index k (chunks_at (scheme_of self.now.load.plan) (R.meaning rack.now) offset) h e) gains.old gains.new }
    {
        let shares = self.shares_at(rack, e, offset);
        add_shares(self.field, gains, self.load.group.pieces[e].slot, shares);
    }

    /// Moves chunk `e` of the stripe from the gains of the home row, which has the stripe's parities, to those of its own row. A chunk
    /// of the home row is not fetched.
    fn move_chunk<R: Rack>(&self, rack: &R, gains: &mut Gains, e: usize, offset: u16)
        requires { e < self.now.load.group.size }
        ensures { R.valid rack.now → Adds (F.arithmetic self.now.field.now) (scheme_of self.now.load.plan).r' (scheme_of self.now.load.plan).rows (λ k h. outside_row (F.arithmetic self.now.field.now) (scheme_of self.now.load.plan) self.now.load.group.index k (chunks_at (scheme_of self.now.load.plan) (R.meaning rack.now) offset) h e) gains.old gains.new }
    {
        let row = self.load.group.pieces[e].slot;
        if row == self.load.home {
            return;
        }
        let shares = self.shares_at(rack, e, offset);
        let taken = negated(self.field, shares);
        add_shares(self.field, gains, self.load.home, taken);
        add_shares(self.field, gains, row, shares);
    }

    /// Adds what chunk `e` of the stripe adds to the gains.
    fn gain_chunk<R: Rack>(&self, rack: &R, gains: &mut Gains, e: usize, offset: u16)
        requires { e < self.now.load.group.size }
        ensures { R.valid rack.now → Adds (F.arithmetic self.now.field.now) (scheme_of self.now.load.plan).r' (scheme_of self.now.load.plan).rows (chunk_gain (F.arithmetic self.now.field.now) (scheme_of self.now.load.plan) self.now.load.group.index (chunks_at (scheme_of self.now.load.plan) (R.meaning rack.now) offset) e) gains.old gains.new }
    {
        if self.load.plan.r2 <= self.load.plan.r {
            self.move_chunk(rack, gains, e, offset);
        } else {
            self.add_chunk(rack, gains, e, offset);
        }
    }

    /// Fetches the parities of the stripe at an offset, as many as a row has, each once.
    fn parities_at<R: Rack>(&self, rack: &R, offset: u16, parities: &mut [u16; 4])
        ensures { R.valid rack.now → (k : ℕ) → k < (scheme_of self.now.load.plan).r' → slice_index parities.new k ≡ (R.meaning rack.now).symbol ((scheme_of self.now.load.plan).d' + k) self.now.load.group.index offset }
    {
        // k is a module too, and no parity from r2 on may be fetched: as a closure this wants three clauses, and of the values behind
        // an adapter of `iter_mut` nothing is known
        for k in 0..self.load.plan.r2 {
            let module = self.load.plan.d2 + k;
            parities[k as usize] = symbol(rack, module, self.load.group.index, offset);
        }
    }

    /// The gains of the stripe's own parities: they go to its home row, unless a row has more parities than a stripe.
    fn gain_parities<R: Rack>(&self, rack: &R, offset: u16) -> Gains
        ensures { R.valid rack.now → Amounts (scheme_of self.now.load.plan) (home_gain (scheme_of self.now.load.plan) self.now.load.group.index (λ k. (R.meaning rack.now).symbol ((scheme_of self.now.load.plan).d' + k) self.now.load.group.index offset)) result }
    {
        let mut gains = [[0; 4]; 14];
        if self.load.plan.r2 <= self.load.plan.r {
            self.parities_at(rack, offset, &mut gains[self.load.home as usize]);
        }
        gains
    }

    /// What the stripe adds at an offset to each staged parity of each row. Each chunk and each parity that it takes is fetched once.
    fn gains_at<R: Rack>(&self, rack: &R, offset: u16) -> Gains
        ensures { R.valid rack.now → (R.meaning rack.now).order ≡ (F.arithmetic self.now.field.now).order → Amounts (scheme_of self.now.load.plan) (stripe_gain (F.arithmetic self.now.field.now) (scheme_of self.now.load.plan) self.now.load.group.index (R.meaning rack.now) offset) result }
    {
        let mut gains = self.gain_parities(rack, offset);
        for e in 0..self.load.group.size as usize {
            self.gain_chunk(rack, &mut gains, e, offset);
        }
        gains
    }

    /// Carries the stripe at one offset. The staged parities of each row that it touches are fetched and stored once.
    fn carry_at<R: Rack>(&self, rack: &mut R, offset: u16)
        ensures { Grows R.valid R.meaning (F.arithmetic self.now.field.now) (scheme_of self.now.load.plan) rack.old rack.new offset (stripe_gain (F.arithmetic self.now.field.now) (scheme_of self.now.load.plan) self.now.load.group.index (R.meaning rack.old) offset) }
    {
        let gains = self.gains_at(rack, offset);
        // row is the row that the contract speaks of, and numbers a flag and gains: a `zip` of the two would hide it
        for row in 0..self.load.rows {
            if self.load.touched[row as usize] {
                self.add_to_row(rack, row, offset, &gains[row as usize]);
            }
        }
    }

    /// Carries the stripe, offset by offset.
    fn carry<R: Rack>(&self, rack: &mut R)
        ensures { R.valid rack.old → Whole (F.arithmetic self.now.field.now) (scheme_of self.now.load.plan) (R.meaning rack.old) → R.valid rack.new × (R.meaning rack.new ≡ changed (R.meaning rack.old) (carried_symbol (F.arithmetic self.now.field.now) (scheme_of self.now.load.plan) self.now.load.group.index (R.meaning rack.old))) }
    {
        for offset in 0..self.load.plan.len {
            self.carry_at(rack, offset);
        }
    }

    /// How many chunks of the stripe lie outside its home row.
    fn outside_home(&self) -> u16
        ensures { result ≡ count (λ e. not (slot_at self.now.load.group e == self.now.load.home)) self.now.load.group.size }
    {
        // `filter` and `count` were tried: what they leave to show takes more proof than the loop, of which the check needs an invariant alone
        let mut n = 0;
        for piece in &self.load.group.pieces[..usize::from(self.load.group.size)] {
            if piece.slot != self.load.home {
                n += 1;
            }
        }
        n
    }

    /// The data chunks and the parity chunks that carrying the stripe reads.
    fn counts(&self) -> (u16, u16)
        ensures { result ≡ (carried_data (scheme_of self.now.load.plan) self.now.load.group.index, carried_parities (scheme_of self.now.load.plan)) }
    {
        if self.load.plan.r2 <= self.load.plan.r {
            (self.outside_home(), self.load.plan.r2)
        } else {
            (self.load.group.size, 0)
        }
    }
}

impl<F: Field, R: Rack> Pool<F, R> {
    /// Carries the next stripe: what it adds goes into the staged parities of the rows. Answers how many data chunks and how
    /// many parity chunks were read.
    pub(crate) fn carry_stripe(&mut self) -> Result<(u16, u16), Refusal>
        ensures { Obeys F.arithmetic R.valid R.meaning self.old self.new Carry (of_counts result) }
    {
        under_way(self.phase)?;
        let Some(stripe) = Carrying::of(&self.field, &self.plan, self.carried) else {
            return Err(Refusal::WrongCount(self.carried));
        };
        stripe.carry(&mut self.rack);
        self.carried += 1;
        Ok(stripe.counts())
    }

    /// Carries the next stripe of the changeover that the order holds: what it adds goes into the staged parities of the rows.
    /// Answers how many data chunks and how many parity chunks were read. Refused before and after the changeover, where it is
    /// voided, and where all stripes are carried.
    pub fn carry(&mut self, _order: &Order) -> Result<(u16, u16), Refusal>
        ensures { Obeys F.arithmetic R.valid R.meaning self.old self.new Carry (of_counts result) }
    {
        self.carry_stripe()
    }
}
