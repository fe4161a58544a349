//! Finite fields over codes of 16 bits, sums in them, and small systems of equations over them.
#![tactic(auto)]

mod binary;
mod elimination;
mod posed;
mod prime;
mod squares;
mod sums;
mod systems;

ghost use Rattle.std.specs.Prelude.{◌≡◌, ◌<◌};
ghost use Rattle.field.specs.Arithmetic.{Arithmetic, Lawful, code};
ghost use Rattle.field.specs.Sums.{minus};

pub use binary::{ByteField, NibbleField};
pub use prime::PrimeField;
pub use sums::{coefficient, sum_of_products};
pub use systems::{invert, solve};

/// A finite field. Its elements are given by codes: the numbers below its order. Any other number counts as 0.
pub trait Field {
    ghost arithmetic: { Self → Arithmetic };

    /// How many elements the field has.
    fn order(&self) -> u16
        ensures { result ≡ (arithmetic self.now).order };

    /// The sum of two elements.
    fn add(&self, a: u16, b: u16) -> u16
        ensures is { result ≡ (arithmetic self.now).add a b }
        ensures below { result < (arithmetic self.now).order };

    /// The element whose sum with `a` is zero.
    fn neg(&self, a: u16) -> u16
        ensures is { result ≡ (arithmetic self.now).neg a }
        ensures below { result < (arithmetic self.now).order };

    /// The product of two elements.
    fn mul(&self, a: u16, b: u16) -> u16
        ensures is { result ≡ (arithmetic self.now).mul a b }
        ensures below { result < (arithmetic self.now).order };

    /// The element whose product with `a` is one, or zero where `a` is zero.
    fn inv(&self, a: u16) -> u16
        ensures is { result ≡ (arithmetic self.now).inv a }
        ensures below { result < (arithmetic self.now).order };

    /// The element whose sum with `b` is `a`.
    fn sub(&self, a: u16, b: u16) -> u16
        ensures is { result ≡ minus (arithmetic self.now) a b }
        ensures below { result < (arithmetic self.now).order }
    {
        self.add(a, self.neg(b))
    }

    ghost lawful: { (f : Self) → Lawful (arithmetic f) };
}

/// The code `a` of a field with `q` elements, or 0 where `a` is none.
fn read(q: u16, a: u16) -> u16
    ensures { result ≡ code q a }
{
    if a < q { a } else { 0 }
}
