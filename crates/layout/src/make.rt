// Making a plan, and asking it where its pieces lie.
ghost use Rattle.std.specs.Prelude.{◌≡◌, ◌≤◌, true, MatchResult, ◌+◌};
ghost use Rattle.layout.specs.Counts.{data_read, parities_read, modules_of, slots_of};
ghost use Rattle.layout.specs.Places.{CellOf, HomeOf, ChunkIn, ChunkPlace, ParityPlace};
ghost use Rattle.layout.specs.Placement.{placement};
ghost use Rattle.layout.specs.Placing.{chunks_of, stripes_of, rows_of};
ghost use Rattle.layout.specs.Promises.{outside_home};
ghost use Rattle.layout.specs.declared.refusal.Refusal.TheVariants.{OutOfRange};
ghost use Rattle.layout.specs.Refusals.{Judged, outside};
ghost use Rattle.layout.specs.Sizes.{Within};

use crate::numbers::Widths;
use crate::plan::{Cell, Place, Plan};
use crate::refusal::Refusal;

// Refuses a number of a plan that is out of its range; `place` says which number, counted from 1: d, r, d', r', L.
fn check_range(low: u16, high: u16, n: u16, place: u16) -> Result<(), Refusal>
    ensures { MatchResult result (λ _. Within low high n) (λ e. (outside low high n ≡ true) × (e ≡ OutOfRange place)) }
{
    if (low..=high).contains(&n) {
        Ok(())
    } else {
        Err(Refusal::OutOfRange(place))
    }
}

impl Plan {
    /// Checks the numbers of a rebuild, in order, and makes the plan, or says which rule they break first.
    pub fn new(order: u16, d: u16, r: u16, d2: u16, r2: u16, len: u16) -> Result<Plan, Refusal>
        ensures { Judged order d r d2 r2 len result }
    {
        check_range(2, 14, d, 1)?;
        check_range(1, 4, r, 2)?;
        check_range(2, 14, d2, 3)?;
        check_range(1, 4, r2, 4)?;
        check_range(1, 4096, len, 5)?;
        let b = Widths { d, d2 }.spread();
        if r < b {
            return Err(Refusal::TooFewParities);
        }
        if order < 4 + b * d2 {
            return Err(Refusal::TooFewCodes);
        }
        Ok(Plan {
            order,
            d,
            r,
            d2,
            r2,
            len,
        })
    }

    // The widths of the plan's placement.
    fn widths(&self) -> Widths
        ensures d { result.d ≡ self.now.d }
        ensures d2 { result.d2 ≡ self.now.d2 }
    {
        Widths {
            d: self.d,
            d2: self.d2,
        }
    }

    /// l, the data chunks.
    pub fn chunks(&self) -> u16
        ensures { result ≡ chunks_of self.now.d self.now.d2 }
    {
        self.widths().chunks()
    }

    /// The stripes before the changeover.
    pub fn stripes(&self) -> u16
        ensures { result ≡ stripes_of self.now.d self.now.d2 }
    {
        self.widths().stripes()
    }

    /// The rows after the changeover.
    pub fn rows(&self) -> u16
        ensures { result ≡ rows_of self.now.d self.now.d2 }
    {
        self.widths().rows()
    }

    /// M, the modules that the plan needs.
    pub fn modules(&self) -> u16
        ensures { result ≡ modules_of self.now.r self.now.d2 self.now.r2 }
    {
        self.d2 + self.r.max(self.r2)
    }

    /// S, the slots that the plan needs of each module.
    #[tactic(auto, using(crate::proofs::OfPlan::stripes_le, crate::proofs::OfPlan::rows_le))]
    pub fn slots(&self) -> u16
        ensures { result ≡ slots_of self.now.d self.now.d2 }
    {
        self.stripes() + self.rows()
    }

    /// The cell of a chunk.
    pub fn cell(&self, chunk: u16) -> Option<Cell>
        ensures { CellOf self.now.d self.now.d2 chunk result }
    {
        (chunk < self.chunks()).then(|| self.widths().cell(chunk))
    }

    /// The home row of a stripe.
    pub fn home(&self, stripe: u16) -> Option<u16>
        ensures { HomeOf self.now.d self.now.d2 stripe result }
    {
        (stripe < self.stripes()).then(|| self.widths().home(stripe))
    }

    /// The chunk in a row and a column.
    pub fn chunk_at(&self, row: u16, column: u16) -> Option<u16>
        ensures { ChunkIn self.now.d self.now.d2 row column result }
    {
        (row < self.rows() && column < self.d2).then(|| self.widths().chunk_in(row, column))
    }

    /// The module and slot of a chunk.
    pub fn chunk_place(&self, chunk: u16) -> Option<Place>
        ensures { ChunkPlace self.now.d self.now.d2 chunk result }
    {
        self.cell(chunk).map(|cell| Place {
            module: cell.column,
            slot: cell.row,
        })
    }

    // The module and slot of parity k of group i, one of n groups with r parities each, where the slots are counted from that of group 0.
    fn parity_place(&self, n: u16, r: u16, i: u16, k: u16) -> Option<Place>
        requires { r ≤ 4 }
        ensures { ParityPlace self.now.d2 0 n r i k result }
    {
        (i < n && k < r).then(|| Place {
            module: self.d2 + k,
            slot: i,
        })
    }

    /// The module and slot of a parity of a stripe.
    pub fn stripe_parity_place(&self, stripe: u16, parity: u16) -> Option<Place>
        ensures { ParityPlace self.now.d2 0 (stripes_of self.now.d self.now.d2) self.now.r stripe parity result }
    {
        self.parity_place(self.stripes(), self.r, stripe, parity)
    }

    /// The module and slot of a parity of a row.
    #[tactic(auto, using(crate::proofs::OfPlan::stripes_le, crate::proofs::OfPlan::rows_le))]
    pub fn row_parity_place(&self, row: u16, parity: u16) -> Option<Place>
        ensures { ParityPlace self.now.d2 (stripes_of self.now.d self.now.d2) (rows_of self.now.d self.now.d2) self.now.r2 row parity result }
    {
        let place = self.parity_place(self.rows(), self.r2, row, parity)?;
        Some(Place {
            slot: self.stripes() + place.slot,
            ..place
        })
    }

    /// What a changeover reads in all: data chunks, and parity chunks.
    // The two counts stay a pair, as the public contract has them.
    #[tactic(auto, using(crate::proofs::OfPlan::stripe_parities_le))]
    pub fn counts(&self) -> (u16, u16)
        ensures value { result ≡ (data_read self.now.d self.now.r self.now.d2 self.now.r2, parities_read self.now.d self.now.r self.now.d2 self.now.r2) }
        ensures counted { self.now.r2 ≤ self.now.r → result.0 ≡ outside_home (placement self.now.d self.now.d2) }
    {
        if self.r2 <= self.r {
            (self.widths().outside(), self.r2 * self.stripes())
        } else {
            (self.chunks(), 0)
        }
    }
}
