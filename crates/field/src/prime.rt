//! The field of 257 elements: the numbers modulo 257.
ghost use Rattle.std.specs.Prelude.{◌≡◌, ◌*◌, ◌%◌, ◌<◌};
ghost use Rattle.field.specs.Arithmetic.{powers};
ghost use Rattle.field.specs.Prime.{prime};
ghost use Rattle.field.specs.PrimeLaws.{prime_lawful};

use crate::squares::times_powers;
use crate::{Field, read};

/// The field of 257 elements.
#[derive(Clone, Copy, Drop)]
pub struct PrimeField;

/// The product of two numbers modulo 257.
fn multiply(a: u16, b: u16) -> u16
    ensures { result ≡ a * b % 257 }
{
    (u32::from(a) * u32::from(b) % 257) as u16
}

impl Field for PrimeField {
    ghost arithmetic = { λ _. prime };

    ghost lawful = { λ f. prime_lawful };

    fn order(&self) -> u16 {
        257
    }

    fn add(&self, a: u16, b: u16) -> u16 {
        (read(257, a) + read(257, b)) % 257
    }

    fn neg(&self, a: u16) -> u16 {
        (257 - read(257, a)) % 257
    }

    fn mul(&self, a: u16, b: u16) -> u16 {
        multiply(read(257, a), read(257, b))
    }

    /// The power 255 of `a`, which is the product of its powers 1, 2, 4 and so on, up to 128.
    fn inv(&self, a: u16) -> u16 {
        let a = read(257, a);
        times_powers(multiply, 7, a, a)
    }
}
