// The numbers of a placement of chunks: how many there are, and where each stands.
ghost use Rattle.std.specs.Prelude.{◌≡◌, ◌<◌, ◌≤◌};
ghost use Rattle.layout.specs.Placing.{gcd_of, chunks_of, stripes_of, rows_of, beta_of, start_of, wide_row, wide_column, narrow_row, narrow_column, home_of, spread_of, wide_chunk, narrow_chunk, chunk_at, row_at, column_at, coeff_at};
ghost use Rattle.layout.specs.Counts.{outside_of};
ghost use Rattle.layout.specs.Placement.{placement};
ghost use Rattle.layout.specs.Promises.{outside_home};
ghost use Rattle.layout.specs.Sizes.{Sized, Inside, IsCell};

use crate::plan::Cell;

// The greatest common divisor, by Euclid's steps: the loop counts no index, and std has none.
#[tactic(auto, using(crate::proofs::Gcd::gcd_step, crate::proofs::Gcd::gcd_none))]
fn gcd(a: u16, b: u16) -> u16
    ensures { result ≡ gcd_of a b }
{
    let mut x = a;
    let mut y = b;
    while y != 0 {
        let rest = x % y;
        x = y;
        y = rest;
    }
    x
}

/// The two widths of a placement: every number of it follows from them. It is wide if d ≤ d2, else narrow.
#[derive(Clone, Copy)]
pub(crate) struct Widths {
    /// data chunks of a stripe
    pub d: u16,
    /// data chunks of a row
    pub d2: u16,
    ghost sized: { Sized d d2 },
}

/// Where a chunk stands.
#[derive(Clone, Copy)]
struct Spot {
    row: u16,
    column: u16,
}

impl Widths {
    #[tactic(auto, using(crate::proofs::Bounds::gcd_pos), unfolding(crate::specs::Placing::chunks_of))]
    pub fn chunks(self) -> u16
        ensures { result ≡ chunks_of self.d self.d2 }
    {
        self.d * self.d2 / gcd(self.d, self.d2)
    }

    #[tactic(auto, unfolding(crate::specs::Placing::stripes_of))]
    pub fn stripes(self) -> u16
        ensures { result ≡ stripes_of self.d self.d2 }
    {
        self.chunks() / self.d
    }

    #[tactic(auto, unfolding(crate::specs::Placing::rows_of))]
    pub fn rows(self) -> u16
        ensures { result ≡ rows_of self.d self.d2 }
    {
        self.chunks() / self.d2
    }

    // β of a wide placement: the rows that hold the beginning of a split stripe.
    #[tactic(auto, using(crate::proofs::Bounds::gcd_pos), unfolding(crate::specs::Placing::beta_of))]
    fn beta(self) -> u16
        ensures { result ≡ beta_of self.d self.d2 }
    {
        self.d2 % self.d / gcd(self.d, self.d2)
    }

    // The most chunks of one stripe that a column may hold.
    #[tactic(auto, unfolding(crate::specs::Placing::spread_of))]
    pub fn spread(self) -> u16
        ensures { result ≡ spread_of self.d self.d2 }
    {
        if self.d <= self.d2 {
            1
        } else {
            self.d / self.d2 + 1
        }
    }

    // The column at which row i of a wide placement starts.
    #[tactic(auto, unfolding(crate::specs::Placing::start_of))]
    fn start(self, i: u16) -> u16
        requires { i ≤ 14 }
        ensures value { result ≡ start_of self.d self.d2 i }
        ensures column { result < self.d2 }
    {
        let z = self.d2 % self.d;
        let b = self.beta();
        if i < b {
            i * (self.d - z) % self.d2
        } else {
            (i - b + 1) * z % self.d2
        }
    }

    // Where index e of stripe s stands in a wide placement.
    #[tactic(auto, using(crate::proofs::Small::on_the_way), unfolding(crate::specs::Placing::wide_row, crate::specs::Placing::wide_column))]
    fn wide_spot(self, s: u16, e: u16) -> Spot
        requires inside { Inside self.d self.d2 s e }
        requires wide { self.d ≤ self.d2 }
        ensures row { result.row ≡ wide_row self.d self.d2 s e }
        ensures column { result.column ≡ wide_column self.d self.d2 s e }
    {
        let w = self.d2 / self.d;
        let z = self.d2 % self.d;
        let whole = w * self.rows();
        if s < whole {
            return Spot {
                row: s / w,
                column: (self.start(s / w) + s % w * self.d + e) % self.d2,
            };
        }
        let i = s - whole;
        if e < z {
            return Spot {
                row: i,
                column: (self.start(i) + w * self.d + e) % self.d2,
            };
        }
        let rest = i * (self.d - z) + e - z;
        Spot {
            row: self.beta() + rest / z,
            column: rest % self.d2,
        }
    }

    // Where index e of stripe s stands in a narrow placement.
    #[tactic(auto, using(crate::proofs::Small::on_the_way), unfolding(crate::specs::Placing::narrow_row, crate::specs::Placing::narrow_column))]
    fn narrow_spot(self, s: u16, e: u16) -> Spot
        requires inside { Inside self.d self.d2 s e }
        requires narrow { self.d2 < self.d }
        ensures row { result.row ≡ narrow_row self.d self.d2 s e }
        ensures column { result.column ≡ narrow_column self.d self.d2 s e }
        ensures below { result.column < self.d2 }
    {
        let w = self.d / self.d2;
        if e / self.d2 < w {
            return Spot {
                row: s * w + e / self.d2,
                column: e % self.d2,
            };
        }
        let rest = s * (self.d % self.d2) + e - w * self.d2;
        Spot {
            row: w * self.stripes() + rest / self.d2,
            column: rest % self.d2,
        }
    }

    // The cell of chunk j.
    #[tactic(auto, using(crate::proofs::Within::inside), unfolding(crate::specs::Placing::row_at, crate::specs::Placing::row_of, crate::specs::Placing::column_at, crate::specs::Placing::column_of, crate::specs::Placing::coeff_at, crate::specs::Placing::coeff_of))]
    pub fn cell(self, j: u16) -> Cell
        requires { j < chunks_of self.d self.d2 }
        ensures row { result.row ≡ row_at self.d self.d2 j }
        ensures column { result.column ≡ column_at self.d self.d2 j }
        ensures x { result.x ≡ coeff_at self.d self.d2 j }
    {
        let s = j / self.d;
        let e = j % self.d;
        if self.d <= self.d2 {
            let Spot { row, column } = self.wide_spot(s, e);
            Cell {
                row,
                column,
                x: column,
            }
        } else {
            let Spot { row, column } = self.narrow_spot(s, e);
            Cell {
                row,
                column,
                x: e / self.d2 * self.d2 + column,
            }
        }
    }

    // The home row of stripe s. In a wide placement it is the row of its index 0, which needs no column.
    #[tactic(auto, using(crate::proofs::Small::on_the_way), unfolding(crate::specs::Placing::home_of, crate::specs::Placing::wide_row))]
    pub fn home(self, s: u16) -> u16
        requires { s < stripes_of self.d self.d2 }
        ensures { result ≡ home_of self.d self.d2 s }
    {
        if self.d <= self.d2 {
            let w = self.d2 / self.d;
            let whole = w * self.rows();
            if s < whole { s / w } else { s - whole }
        } else {
            let w = self.d / self.d2;
            s * w + w - 1
        }
    }

    // A cell as a struct with `IsCell` as a ghost field would be made at the calls of these three and taken apart in each: no plainer.
    #[tactic(auto, using(crate::proofs::Cells::on_the_way), unfolding(crate::specs::Placing::wide_chunk))]
    fn wide_chunk(self, i: u16, c: u16) -> u16
        requires cell { IsCell self.d self.d2 i c }
        requires wide { self.d ≤ self.d2 }
        ensures { result ≡ wide_chunk self.d self.d2 i c }
    {
        let w = self.d2 / self.d;
        let z = self.d2 % self.d;
        let off = (c + self.d2 - self.start(i)) % self.d2;
        if off < w * self.d {
            return i * w * self.d + off;
        }
        let b = self.beta();
        let whole = w * self.rows();
        if i < b {
            return (whole + i) * self.d + (off - w * self.d);
        }
        let t = (i - b) * z + (off - w * self.d);
        (whole + t / (self.d - z)) * self.d + z + t % (self.d - z)
    }

    #[tactic(auto, using(crate::proofs::Cells::on_the_way), unfolding(crate::specs::Placing::narrow_chunk))]
    fn narrow_chunk(self, i: u16, c: u16) -> u16
        requires cell { IsCell self.d self.d2 i c }
        requires narrow { self.d2 < self.d }
        ensures { result ≡ narrow_chunk self.d self.d2 i c }
    {
        let w = self.d / self.d2;
        let z = self.d % self.d2;
        let whole = w * self.stripes();
        if i < whole {
            return i / w * self.d + i % w * self.d2 + c;
        }
        let t = (i - whole) * self.d2 + c;
        t / z * self.d + w * self.d2 + t % z
    }

    // The chunk in row i and column c.
    #[tactic(auto, unfolding(crate::specs::Placing::chunk_at))]
    pub fn chunk_in(self, i: u16, c: u16) -> u16
        requires { IsCell self.d self.d2 i c }
        ensures { result ≡ chunk_at self.d self.d2 i c }
    {
        if self.d <= self.d2 {
            self.wide_chunk(i, c)
        } else {
            self.narrow_chunk(i, c)
        }
    }

    // The chunks outside the home rows.
    #[tactic(auto, using(crate::proofs::Small::wide_outside_le, crate::proofs::Small::narrow_outside_le, crate::proofs::Facts::outside_is), unfolding(crate::specs::Counts::outside_of))]
    pub fn outside(self) -> u16
        ensures value { result ≡ outside_of self.d self.d2 }
        ensures counted { result ≡ outside_home (placement self.d self.d2) }
    {
        if self.d <= self.d2 {
            self.beta() * (self.d - self.d2 % self.d)
        } else {
            self.stripes() * (self.d - self.d2)
        }
    }
}
