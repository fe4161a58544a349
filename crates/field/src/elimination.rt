//! One step of the elimination.
ghost use Rattle.std.specs.Prelude.{◌≡◌, ℕ, ◌<◌, ◌≤◌, ◌≢◌, [], slice_index, slice_index_or};
ghost use Rattle.field.specs.Elimination.{Grid, Scaled, Reduced, Stepped, Same};
ghost use Rattle.field.specs.Sums.{minus};
ghost use Rattle.field.specs.Systems.{at, Codes};

use crate::Field;
use std::array;

/// The row times a number.
fn scaled<F: Field>(field: &F, row: [u16; 4], by: u16) -> [u16; 4]
    ensures { Scaled (F.arithmetic field.now) by row result }
{
    array::from_fn(|j| field.mul(by, row[j]))
}

/// The row less a number times the row `top`.
fn reduced<F: Field>(field: &F, row: [u16; 4], top: [u16; 4], by: u16) -> [u16; 4]
    ensures { Reduced (F.arithmetic field.now) by row top result }
{
    array::from_fn(|j| field.sub(row[j], field.mul(by, top[j])))
}

/// Clears a column of the system `a`, `b`, above and below its pivot, which becomes one. The solutions stay the same.
pub(crate) fn eliminate<F: Field>(
    field: &F,
    a: [[u16; 4]; 4],
    b: [u16; 4],
    column: usize,
) -> ([[u16; 4]; 4], [u16; 4])
    requires within { column < 4 }
    requires grid { Grid (F.arithmetic field.now) a }
    requires codes { Codes (F.arithmetic field.now) 4 b }
    requires pivot { at a column column ≢ 0 }
    ensures step { Stepped (F.arithmetic field.now) column a b result.0 result.1 }
    ensures same { (n : ℕ) → n ≤ 4 → column < n → Same (F.arithmetic field.now) n a b result.0 result.1 }
{
    let by = field.inv(a[column][column]);
    let top = scaled(field, a[column], by);
    let side = field.mul(by, b[column]);
    let rows = array::from_fn(
        |i: usize| -> [u16; 4]
            requires row { i < 4 }
            requires column { column < 4 }
            ensures pivot { i ≡ column → result ≡ top }
            ensures other { i ≢ column → Reduced (F.arithmetic field.entry.now) (slice_index (slice_index_or a i []) column) (slice_index_or a i []) top result }
        {
            if i == column {
                top
            } else {
                reduced(field, a[i], top, a[i][column])
            }
        },
    );
    let sides = array::from_fn(
        |i: usize| -> u16
            requires row { i < 4 }
            requires column { column < 4 }
            ensures pivot { i ≡ column → result ≡ side }
            ensures other { i ≢ column → result ≡ minus (F.arithmetic field.entry.now) (slice_index b i) ((F.arithmetic field.entry.now).mul (slice_index (slice_index_or a i []) column) side) }
        {
            if i == column {
                side
            } else {
                field.sub(b[i], field.mul(a[i][column], side))
            }
        },
    );
    (rows, sides)
}
