//! The parities of a group.
ghost use Rattle.std.specs.Prelude.{◌≡◌, ◌<◌, if◌then◌else◌, nat_lt, slice_index};
ghost use Rattle.coding.specs.Pieces.{ParityBy, ParityOf, Weights, x_at};
ghost use Rattle.field.specs.Sums.{coefficient, total};

use crate::group::Group;
use field::{Field, coefficient, sum_of_products};
use std::array;

impl Group {
    /// The coefficient of chunk `e` in parity `k`; zero where the group has no such chunk.
    // Like the other functions of this crate at one index of 14, it asks that the index is below: an index type that says so would be
    // made in each closure of `from_fn` that calls one, and be no plainer.
    fn weight<F: Field>(&self, field: &F, k: u8, e: usize) -> u16
        requires { e < 14 }
        ensures { result ≡ (if nat_lt e self.now.size then coefficient (F.arithmetic field.now) k (x_at self.now e) else 0) }
    {
        if e < usize::from(self.size) {
            coefficient(field, k, self.pieces[e].x)
        } else {
            0
        }
    }

    /// The coefficients of the chunks in parity `k`, and zeros after them.
    pub fn weights<F: Field>(&self, field: &F, k: u8) -> [u16; 14]
        ensures { Weights (F.arithmetic field.now) self.now k result }
    {
        array::from_fn(|e| self.weight(field, k, e))
    }

    /// Parity `k`, where the chunks, in their order, have these symbols.
    pub fn parity<F: Field>(&self, field: &F, k: u8, chunks: [u16; 14]) -> u16
        ensures is { ParityOf (F.arithmetic field.now) self.now k chunks result }
        ensures below { result < (F.arithmetic field.now).order }
    {
        parity_of(field, self.weights(field, k), chunks)
    }
}

/// The sum of the products of two arrays, place by place.
pub(crate) fn products<F: Field, const N: usize>(field: &F, a: [u16; N], b: [u16; N]) -> u16
    ensures is { result ≡ total (F.arithmetic field.now) N (λ e. (F.arithmetic field.now).mul (slice_index a.entry e) (slice_index b.entry e)) }
    ensures below { result < (F.arithmetic field.now).order }
{
    sum_of_products(field, &a, &b)
}

/// The parity with these coefficients, of a group whose chunks, in their order, have these symbols.
pub fn parity_of<F: Field>(field: &F, weights: [u16; 14], chunks: [u16; 14]) -> u16
    ensures sum { result ≡ total (F.arithmetic field.now) 14 (λ e. (F.arithmetic field.now).mul (slice_index weights e) (slice_index chunks e)) }
    ensures is { ParityBy (F.arithmetic field.now) weights chunks result }
    ensures below { result < (F.arithmetic field.now).order }
{
    products(field, weights, chunks)
}
