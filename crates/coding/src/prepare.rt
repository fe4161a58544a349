//! Making a repair.
ghost use Rattle.std.specs.Prelude.{◌≡◌, ℕ, ◌+◌, ◌<◌, ◌≤◌, true, not, ◌&&◌, length, min, nat_lt, slice_index, slice_index_or, []};
ghost use Rattle.coding.specs.Groups.{count, groups, parities};
ghost use Rattle.coding.specs.Pieces.{Weights, module_at, x_at};
ghost use Rattle.coding.specs.Repairs.{MissesTooMany, Prepared};
ghost use Rattle.coding.specs.Schemes.{scheme_of};
ghost use Rattle.coding.specs.Steps.{Gone, Left, Positions, flags};
ghost use Rattle.coding.specs.Words.{OneWord, missing_pieces};
ghost use Rattle.field.specs.Systems.{Inverse, Posed};

use crate::group::{Group, Kind};
use crate::repair::Repair;
use field::{Field, invert};
use layout::plan::Plan;
use layout::refusal::Refusal;
use std::array;

/// Whether a module is one of those that are out.
fn is_out(out: [bool; 32], module: usize) -> bool
    ensures { result ≡ flags out «module» }
{
    module < 32 && out[module]
}

impl Group {
    /// Whether the group has a chunk `e` and it is missing.
    fn is_gone(&self, out: [bool; 32], e: usize) -> bool
        requires { e < 14 }
        ensures { result ≡ (nat_lt e self.now.size && flags out (module_at self.now e)) }
    {
        e < usize::from(self.size) && is_out(out, usize::from(self.pieces[e].module))
    }

    /// Whether each chunk of the group is missing.
    fn gone(&self, out: [bool; 32]) -> [bool; 14]
        ensures { Gone self.now out result }
    {
        array::from_fn(|e| self.is_gone(out, e))
    }

    /// Whether the group has a parity `k` and it is left.
    fn is_left(&self, out: [bool; 32], k: usize) -> bool
        requires { k < 4 }
        ensures { result ≡ (nat_lt k self.now.parities && not (flags out (self.now.first + k))) }
    {
        k < usize::from(self.parities) && !is_out(out, usize::from(self.first) + k)
    }

    /// Whether each parity of the group is left.
    fn left(&self, out: [bool; 32]) -> [bool; 4]
        ensures { Left self.now out result }
    {
        array::from_fn(|k| self.is_left(out, k))
    }

    /// Whether the group misses more pieces than it has parities.
    fn misses_too_many(&self, out: [bool; 32]) -> bool
        ensures { MissesTooMany self.now out result }
    {
        too_few(self.gone(out), self.left(out))
    }

    /// The coefficient columns of chunks of the group.
    fn columns(&self, chunks: [u8; 4]) -> [u8; 4]
        requires { (j : ℕ) → j < 4 → slice_index chunks j < 14 }
        ensures { (j : ℕ) → j < 4 → slice_index result j ≡ x_at self.now (slice_index chunks j) }
    {
        array::from_fn(|j| self.pieces[usize::from(chunks[j])].x)
    }

    /// The modules of parities of the group.
    fn sources(&self, parities: [u8; 4]) -> [u16; 4]
        ensures { (j : ℕ) → j < 4 → slice_index result j ≡ min (self.now.first + slice_index parities j) u16.MAX }
    {
        array::from_fn(|j| self.first.saturating_add(u16::from(parities[j])))
    }

    /// The coefficients of the chunks of the group in the first `n` of the parities.
    fn coefficients<F: Field>(&self, field: &F, n: usize, parities: [u8; 4]) -> [[u16; 14]; 4]
        ensures { (j : ℕ) → j < 4 → j < n → Weights (F.arithmetic field.now) self.now (slice_index parities j) (slice_index_or result j []) }
    {
        array::from_fn(
            |j: usize| -> [u16; 14]
                requires { j < 4 }
                ensures { j < n → Weights (F.arithmetic field.entry.now) self.entry.now (slice_index parities j) result }
            {
                if j < n {
                    self.weights(field, parities[j])
                } else {
                    [0; 14]
                }
            },
        )
    }
}

/// The places of the first four flags that are set, and how many are set in all.
// An array with a count, here and in the functions that take one: memory is fixed, with no heap.
fn positions(xs: &[bool]) -> ([u8; 4], usize)
    requires some { 0 < length xs.now }
    requires few { length xs.now ≤ 14 }
    ensures { Positions xs.now result.0 result.1 }
{
    let mut list = [0; 4];
    let mut n = 0;
    for (e, is_set) in xs.iter().enumerate() {
        if *is_set {
            if n < 4 {
                list[n] = e as u8;
            }
            n += 1;
        }
    }
    (list, n)
}

/// The inverse of the coefficients of the first `n` of the columns in the first `n` of the parities; zeros where there is none.
fn inverse_of<F: Field>(field: &F, n: usize, parities: [u8; 4], columns: [u8; 4]) -> [[u16; 4]; 4]
    ensures { Posed (F.arithmetic field.now) n parities columns → Inverse (F.arithmetic field.now) n parities columns result }
{
    invert(field, n, parities, columns).unwrap_or([[0; 4]; 4])
}

/// Whether more chunks are missing than parities are left.
fn too_few(gone: [bool; 14], left: [bool; 4]) -> bool
    ensures { result ≡ nat_lt (count (flags left) 4) (count (flags gone) 14) }
{
    let (_, missing) = positions(&gone);
    let (_, held) = positions(&left);
    held < missing
}

/// Whether a group misses more pieces than it has parities. A group that is not there counts as one that does.
pub fn is_beyond(plan: &Plan, kind: Kind, index: u16, out: [bool; 32]) -> bool
    ensures there { index < groups (scheme_of plan.now) kind → result ≡ nat_lt (parities (scheme_of plan.now) kind) (missing_pieces (scheme_of plan.now) kind index (flags out)) }
    ensures absent { groups (scheme_of plan.now) kind ≤ index → result ≡ true }
{
    Group::of(plan, kind, index).is_none_or(|group| group.misses_too_many(out))
}

/// Works out how to rebuild a group where some modules are out: the missing chunks, the parities that stand in for them, and
/// the inverse of their coefficients. It refuses a group that misses more pieces than it has parities, and one that is not there.
pub fn prepare<F: Field>(
    plan: &Plan,
    field: &F,
    kind: Kind,
    index: u16,
    out: [bool; 32],
) -> Result<Repair, Refusal>
    ensures prepared { Prepared plan.now (F.arithmetic field.now) kind index out result }
    ensures one_word { (F.arithmetic field.now).order ≡ plan.now.order → OneWord (F.arithmetic field.now) (scheme_of plan.now) }
{
    let group = Group::of(plan, kind, index).ok_or(Refusal::BeyondRepair(index))?;
    let gone = group.gone(out);
    let (missing, count) = positions(&gone);
    let left = group.left(out);
    let (parities, held) = positions(&left);
    if held < count {
        return Err(Refusal::BeyondRepair(index));
    }
    let columns = group.columns(missing);
    Ok(Repair {
        group,
        gone,
        count,
        missing,
        parities,
        sources: group.sources(parities),
        coefficients: group.coefficients(field, count, parities),
        columns,
        inverse: inverse_of(field, count, parities, columns),
    })
}
