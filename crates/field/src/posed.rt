//! Tests of what a system is made from.
ghost use Rattle.std.specs.Prelude.{ℕ, ◌<◌, ◌≤◌, length, Decides, slice_index};
ghost use Rattle.field.specs.Elimination.{Once};
ghost use Rattle.field.specs.Systems.{Codes, Distinct, Posed};

use crate::Field;

/// Whether each of the numbers is below the limit.
fn all_below(xs: &[u8], limit: u16) -> bool
    ensures { Decides result ((i : ℕ) → i < length xs.now → slice_index xs.now i < limit) }
{
    xs.iter().all(|x| u16::from(*x) < limit)
}

/// Whether no two of the numbers are equal.
fn distinct(xs: &[u8]) -> bool
    ensures { Decides result (Distinct (length xs.now) xs.now) }
{
    xs.iter().enumerate().all(|(i, x)| !xs[..i].contains(x))
}

/// Whether the numbers are below the limit, and no two of them equal.
fn distinct_below(xs: &[u8], limit: u16) -> bool
    ensures { Decides result (Once (length xs.now) limit xs.now) }
{
    all_below(xs, limit) && distinct(xs)
}

/// Whether each of the first `n` of the sides is a code of the field.
pub(crate) fn all_codes<F: Field>(field: &F, n: usize, sides: [u16; 4]) -> bool
    requires { n ≤ 4 }
    ensures { Decides result (Codes (F.arithmetic field.now) n sides) }
{
    let order = field.order();
    sides[..n].iter().all(|side| *side < order)
}

/// Whether the first `n` of the parities `ks` and of the chunks `xs` give a system.
pub(crate) fn is_posed<F: Field>(field: &F, n: usize, ks: [u8; 4], xs: [u8; 4]) -> bool
    ensures { Decides result (Posed (F.arithmetic field.now) n ks xs) }
{
    if n > 4 {
        return false;
    }
    let limit = field.order().saturating_sub(4);
    distinct_below(&ks[..n], 4) && distinct_below(&xs[..n], limit)
}
