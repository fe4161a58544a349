//! The fields of 256 and of 16 elements: polynomials over two elements, one bit for each coefficient.
ghost use Rattle.std.specs.Prelude.{◌≡◌, ℕ, ◌-◌, ◌%◌, ◌^◌, ◌<◌, ◌≤◌};
ghost use Rattle.field.specs.Arithmetic.{Lawful, powers, reading};
ghost use Rattle.field.specs.Binary.{binary, shifted, pick, product, Degree};
ghost use Rattle.field.specs.BinaryLaws.{byte_degree, byte_lawful, nibble_degree, nibble_lawful};

use crate::squares::times_powers;
use crate::{Field, read};

/// An irreducible polynomial over two elements. The polynomials of lower degree, with products reduced by it, are a field.
pub trait Modulus {
    ghost DEGREE: { ℕ };

    /// its degree
    const DEGREE: u16;

    ghost POLYNOMIAL: { ℕ };

    /// the polynomial itself
    const POLYNOMIAL: u16;

    // it has that degree, and gives a field
    ghost degree: { Degree DEGREE POLYNOMIAL };

    ghost lawful: { Lawful (reading (binary DEGREE POLYNOMIAL)) };
}

/// The field of 256 elements, reduced by x^8 + x^4 + x^3 + x^2 + 1.
#[derive(Clone, Copy, Drop)]
pub struct ByteField;

impl Modulus for ByteField {
    ghost DEGREE = { 8 };

    const DEGREE: u16 = 8;

    ghost POLYNOMIAL = { 0x11D };

    const POLYNOMIAL: u16 = 0x11D;

    ghost degree = { byte_degree };

    ghost lawful = { byte_lawful };
}

/// The field of 16 elements, reduced by x^4 + x + 1.
#[derive(Clone, Copy, Drop)]
pub struct NibbleField;

impl Modulus for NibbleField {
    ghost DEGREE = { 4 };

    const DEGREE: u16 = 4;

    ghost POLYNOMIAL = { 0x13 };

    const POLYNOMIAL: u16 = 0x13;

    ghost degree = { nibble_degree };

    ghost lawful = { nibble_lawful };
}

/// The lowest digit of `d` times `a`.
fn digit_times(d: u16, a: u16) -> u16
    ensures { result ≡ pick (d % 2) a }
{
    if d % 2 == 0 { 0 } else { a }
}

/// x times the polynomial `a`, reduced.
fn shift<M: Modulus>(a: u16) -> u16
    requires { a < 2 ^ M.DEGREE }
    ensures { result ≡ shifted M.DEGREE M.POLYNOMIAL a }
{
    (a * 2) ^ digit_times(a >> (M::DEGREE - 1), M::POLYNOMIAL)
}

/// The product of two polynomials, reduced.
fn multiply<M: Modulus>(a: u16, b: u16) -> u16
    requires { a < 2 ^ M.DEGREE }
    ensures is { result ≡ product M.DEGREE M.POLYNOMIAL M.DEGREE a b }
    ensures below { result < 2 ^ M.DEGREE }
{
    let mut sum = 0;
    let mut x = a;
    let mut y = b;
    for _i in 0..M::DEGREE {
        sum ^= digit_times(y, x);
        x = shift::<M>(x);
        y /= 2;
    }
    sum
}

impl<M: Modulus> Field for M {
    ghost arithmetic = { λ _. reading (binary M.DEGREE M.POLYNOMIAL) };

    ghost lawful = { λ f. M.lawful };

    fn order(&self) -> u16 {
        1 << M::DEGREE
    }

    fn add(&self, a: u16, b: u16) -> u16 {
        read(self.order(), a) ^ read(self.order(), b)
    }

    fn neg(&self, a: u16) -> u16 {
        read(self.order(), a)
    }

    fn mul(&self, a: u16, b: u16) -> u16 {
        multiply::<M>(read(self.order(), a), read(self.order(), b))
    }

    /// The power 2 ^ w - 2 of `a`, where w is the degree, which is the product of its powers 2, 4, 8 and so on, w - 1 of them.
    fn inv(&self, a: u16) -> u16 {
        let a = read(self.order(), a);
        // `multiply::<M>` alone, a function that is generic, is not covered where an `Fn` is wanted.
        times_powers(|x, y| multiply::<M>(x, y), M::DEGREE - 1, a, 1)
    }
}
