//! Sums in a field, and the coefficients of the parities.
ghost use Rattle.std.specs.Prelude.{◌≡◌, ◌<◌, min, length, slice_index};
ghost use Rattle.field.specs.Sums.{coefficient, total};

use crate::Field;

/// The weight in parity `k` of a chunk whose coefficient column is `x`: the inverse of `k` less 4 + `x`.
pub fn coefficient<F: Field>(field: &F, k: u8, x: u8) -> u16
    ensures is { result ≡ coefficient (F.arithmetic field.now) k x }
    ensures below { result < (F.arithmetic field.now).order }
{
    field.inv(field.sub(u16::from(k), 4 + u16::from(x)))
}

/// The sum of the products of the elements of `a` and `b`, place by place, up to the end of the shorter.
pub fn sum_of_products<F: Field>(field: &F, a: &[u16], b: &[u16]) -> u16
    ensures is { result ≡ total (F.arithmetic field.now) (min (length a.now) (length b.now)) (λ j. (F.arithmetic field.now).mul (slice_index a.now j) (slice_index b.now j)) }
    ensures below { result < (F.arithmetic field.now).order }
{
    let mut sum = 0;
    for (x, y) in a.iter().zip(b) {
        sum = field.add(sum, field.mul(*x, *y));
    }
    sum
}
