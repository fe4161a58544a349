//! At most four equations over a field, whose coefficients are those of parities and chunks.
ghost use Rattle.std.specs.Prelude.{◌≡◌, ◌<◌, MatchOption};
ghost use Rattle.field.specs.Elimination.{CoefficientAt, CoefficientRow, Coefficients, Column, First, Transposed, UnitSolution, Units, unit};
ghost use Rattle.field.specs.Systems.{Codes, Inverse, Posed, Solution};

use crate::elimination::eliminate;
use crate::posed::{all_codes, is_posed};
use crate::{Field, coefficient};
use std::array;

// Both public functions take plain arrays by value, with the number `n` that is used of each: memory is fixed, with no heap.
/// The one solution of the `n` equations that the sum over the chunks x of coefficient(k, x) times the unknown of x is the side of the parity k.
/// There is none to give where the parities and chunks give no system, or a side is no code.
pub fn solve<F: Field>(
    field: &F,
    n: usize,
    ks: [u8; 4],
    xs: [u8; 4],
    sides: [u16; 4],
) -> Option<[u16; 4]>
    ensures { MatchOption result ((Posed (F.arithmetic field.now) n ks xs × Codes (F.arithmetic field.now) n sides) → ⊥) (λ u. Posed (F.arithmetic field.now) n ks xs × Codes (F.arithmetic field.now) n sides × Solution (F.arithmetic field.now) n ks xs sides u) }
{
    let system = System::new(field, n, ks, xs)?;
    system.solve(sides)
}

/// The matrix whose row j gives unknown j of the `n` equations: the sum of its products with the sides, place by place.
/// There is none to give where the parities and chunks give no system.
pub fn invert<F: Field>(field: &F, n: usize, ks: [u8; 4], xs: [u8; 4]) -> Option<[[u16; 4]; 4]>
    ensures { MatchOption result (Posed (F.arithmetic field.now) n ks xs → ⊥) (λ w. Posed (F.arithmetic field.now) n ks xs × Inverse (F.arithmetic field.now) n ks xs w) }
{
    let system = System::new(field, n, ks, xs)?;
    Some(system.inverse())
}

// Two arrays with a count: memory is fixed, with no heap, and each parity stands with every chunk, so they are no pairs.
/// The equations of the first `n` of the parities `ks`, whose unknowns are the symbols of the first `n` of the chunks `xs`.
#[derive(Drop)]
struct System<'a, F: Field> {
    field: &'a F,
    n: usize,
    ks: [u8; 4],
    xs: [u8; 4],
    ghost posed: { Posed (F.arithmetic field.now) n ks xs },
}

impl<'a, F: Field> System<'a, F> {
    /// The system of parities and chunks, where they give one.
    fn new(field: &'a F, n: usize, ks: [u8; 4], xs: [u8; 4]) -> Option<Self>
        ensures { MatchOption result (Posed (F.arithmetic field.now) n ks xs → ⊥) (λ s. (s.field.now ≡ field.now) × (s.n ≡ n) × (s.ks ≡ ks) × (s.xs ≡ xs)) }
    {
        if is_posed(field, n, ks, xs) {
            Some(System { field, n, ks, xs })
        } else {
            None
        }
    }

    /// The coefficient of chunk `j` in parity `i`, and zero past the first `n` of them.
    fn coefficient_at(&self, i: usize, j: usize) -> u16
        requires row { i < 4 }
        requires column { j < 4 }
        ensures { CoefficientAt (F.arithmetic self.now.field.now) self.now.n self.now.ks self.now.xs i j result }
    {
        if i < self.n && j < self.n {
            coefficient(self.field, self.ks[i], self.xs[j])
        } else {
            0
        }
    }

    /// The coefficients in parity `i`.
    fn row(&self, i: usize) -> [u16; 4]
        requires { i < 4 }
        ensures { CoefficientRow (F.arithmetic self.now.field.now) self.now.n self.now.ks self.now.xs i result }
    {
        array::from_fn(|j| self.coefficient_at(i, j))
    }

    /// The coefficients, and zeros around them.
    fn coefficients(&self) -> [[u16; 4]; 4]
        ensures { Coefficients (F.arithmetic self.now.field.now) self.now.n self.now.ks self.now.xs result }
    {
        array::from_fn(
            |i: usize| -> [u16; 4]
                requires { i < 4 }
                ensures { CoefficientRow (F.arithmetic self.entry.now.field.now) self.entry.now.n self.entry.now.ks self.entry.now.xs i result }
            { self.row(i) },
        )
    }

    /// The one solution.
    fn solution(&self, sides: [u16; 4]) -> [u16; 4]
        requires { Codes (F.arithmetic self.now.field.now) self.now.n sides }
        ensures { Solution (F.arithmetic self.now.field.now) self.now.n self.now.ks self.now.xs sides result }
    {
        let mut a = self.coefficients();
        let mut b = first(self.n, sides);
        for column in 0..self.n {
            (a, b) = eliminate(self.field, a, b, column);
        }
        b
    }

    /// The one solution, where the sides are codes.
    fn solve(&self, sides: [u16; 4]) -> Option<[u16; 4]>
        ensures { MatchOption result (Codes (F.arithmetic self.now.field.now) self.now.n sides → ⊥) (λ u. Codes (F.arithmetic self.now.field.now) self.now.n sides × Solution (F.arithmetic self.now.field.now) self.now.n self.now.ks self.now.xs sides u) }
    {
        if all_codes(self.field, self.n, sides) {
            Some(self.solution(sides))
        } else {
            None
        }
    }

    /// The solution for the sides that are one at `k` and zero elsewhere; zeros past the first `n` of them.
    fn unit_solution(&self, k: usize) -> [u16; 4]
        requires { k < 4 }
        ensures { UnitSolution (F.arithmetic self.now.field.now) self.now.n self.now.ks self.now.xs k result }
    {
        if k < self.n {
            self.solution(unit_sides(k))
        } else {
            [0; 4]
        }
    }

    /// Row k is the solution for the sides that are one at k and zero elsewhere.
    fn unit_solutions(&self) -> [[u16; 4]; 4]
        ensures { Units (F.arithmetic self.now.field.now) self.now.n self.now.ks self.now.xs result }
    {
        array::from_fn(
            |k: usize| -> [u16; 4]
                requires { k < 4 }
                ensures { UnitSolution (F.arithmetic self.entry.now.field.now) self.entry.now.n self.entry.now.ks self.entry.now.xs k result }
            { self.unit_solution(k) },
        )
    }

    /// The matrix whose row j gives unknown j: the sum of its products with the sides, place by place.
    fn inverse(&self) -> [[u16; 4]; 4]
        ensures { Inverse (F.arithmetic self.now.field.now) self.now.n self.now.ks self.now.xs result }
    {
        transposed(self.unit_solutions())
    }
}

/// The first `n` of the sides, and zeros after them.
fn first(n: usize, sides: [u16; 4]) -> [u16; 4]
    ensures { First n sides result }
{
    array::from_fn(|i| if i < n { sides[i] } else { 0 })
}

/// The sides that are one at `k` and zero elsewhere.
fn unit_sides(k: usize) -> [u16; 4]
    requires { k < 4 }
    ensures { result ≡ unit k }
{
    let mut sides = [0; 4];
    sides[k] = 1;
    sides
}

/// Column `j` of the matrix.
fn column(m: [[u16; 4]; 4], j: usize) -> [u16; 4]
    requires { j < 4 }
    ensures { Column m j result }
{
    array::from_fn(|i| m[i][j])
}

/// The matrix whose rows are the columns of `m`.
fn transposed(m: [[u16; 4]; 4]) -> [[u16; 4]; 4]
    ensures { Transposed m result }
{
    array::from_fn(
        |j: usize| -> [u16; 4]
            requires { j < 4 }
            ensures { Column m j result }
        { column(m, j) },
    )
}
