// Adding to parities in place.
ghost use Rattle.std.specs.Prelude.{◌≡◌, ℕ, ◌+◌, ◌<◌, ◌≤◌, None, slice_index, slice_index_or};
ghost use Rattle.pool.specs.Effects.{changed};
ghost use Rattle.pool.specs.WordSteps.{added_at, added_to, share_of, Fetched, Spans};

use field::{Field, coefficient};
use rack::rack::Rack;
use std::array;

/// Parities of a group that a write keeps up.
#[derive(Clone, Copy)]
pub(crate) struct Parities {
    /// the module of parity 0: parity k is on the k-th module after it
    pub(crate) first: u16,
    /// their slot
    pub(crate) slot: u16,
    /// how many there are
    pub(crate) count: u16,
    /// the symbols of those that were fetched before, and none after them: an array, since memory is fixed
    pub(crate) fetched: [Option<u16>; 4],
}

/// Adds to the symbol at a place, where its module is fitted.
pub(crate) fn add_at<F: Field, R: Rack>(
    rack: &mut R,
    field: &F,
    module: u16,
    slot: u16,
    offset: u16,
    amount: u16,
)
    ensures { R.valid rack.old → Spans (F.arithmetic field.now) (R.meaning rack.old) («module» + 1) slot offset → R.valid rack.new × (R.meaning rack.new ≡ changed (R.meaning rack.old) (added_at (F.arithmetic field.now) (R.meaning rack.old) «module» slot offset amount)) }
{
    if let Some(old) = rack.get(module, slot, offset) {
        let _ = rack.put(module, slot, offset, field.add(old, amount));
    }
}

/// What a change of a chunk, whose coefficient column is `x`, adds to each of the first `n` parities: the change times its
/// coefficient. Those of the others are not worked out.
pub(crate) fn shares_of<F: Field>(field: &F, x: u8, change: u16, n: u16) -> [u16; 4]
    ensures { (k : ℕ) → k < 4 → k < n → slice_index result k ≡ share_of (F.arithmetic field.now) x change k }
{
    array::from_fn(
        |k: usize| -> u16
            requires { k < 4 }
            ensures { k < n → result ≡ share_of (F.arithmetic field.entry.now) x change k }
        {
            if k < usize::from(n) {
                field.mul(coefficient(field, k as u8, x), change)
            } else {
                0
            }
        },
    )
}

/// Adds to the symbol at a place, where its module is fitted. A symbol that was fetched before is not fetched again.
fn add_once<F: Field, R: Rack>(
    rack: &mut R,
    field: &F,
    module: u16,
    slot: u16,
    offset: u16,
    fetched: Option<u16>,
    amount: u16,
)
    ensures { R.valid rack.old → Spans (F.arithmetic field.now) (R.meaning rack.old) («module» + 1) slot offset → Fetched (R.meaning rack.old) «module» slot offset fetched → R.valid rack.new × (R.meaning rack.new ≡ changed (R.meaning rack.old) (added_at (F.arithmetic field.now) (R.meaning rack.old) «module» slot offset amount)) }
{
    match fetched {
        Some(old) => {
            let _ = rack.put(module, slot, offset, field.add(old, amount));
        }
        None => add_at(rack, field, module, slot, offset, amount),
    }
}

/// Adds its share to parity `k`, where its module is fitted.
fn add_parity<F: Field, R: Rack>(
    rack: &mut R,
    field: &F,
    parities: Parities,
    k: u16,
    offset: u16,
    shares: [u16; 4],
)
    requires low { parities.first ≤ 14 }
    requires few { k < 4 }
    ensures { R.valid rack.old → Spans (F.arithmetic field.now) (R.meaning rack.old) (parities.first + k + 1) parities.slot offset → Fetched (R.meaning rack.old) (parities.first + k) parities.slot offset (slice_index_or parities.fetched k None) → R.valid rack.new × (R.meaning rack.new ≡ changed (R.meaning rack.old) (added_at (F.arithmetic field.now) (R.meaning rack.old) (parities.first + k) parities.slot offset (slice_index shares k))) }
{
    add_once(
        rack,
        field,
        parities.first + k,
        parities.slot,
        offset,
        parities.fetched[k as usize],
        shares[k as usize],
    );
}

/// Adds to each of the parities whose module is fitted its share.
pub(crate) fn add_parities<F: Field, R: Rack>(
    rack: &mut R,
    field: &F,
    parities: Parities,
    offset: u16,
    shares: [u16; 4],
)
    requires low { parities.first ≤ 14 }
    requires few { parities.count ≤ 4 }
    ensures { R.valid rack.old → Spans (F.arithmetic field.now) (R.meaning rack.old) (parities.first + parities.count) parities.slot offset → ((k : ℕ) → k < parities.count → Fetched (R.meaning rack.old) (parities.first + k) parities.slot offset (slice_index_or parities.fetched k None)) → R.valid rack.new × (R.meaning rack.new ≡ changed (R.meaning rack.old) (added_to (F.arithmetic field.now) (R.meaning rack.old) parities.first parities.slot parities.count offset (λ k. slice_index shares k))) }
{
    for k in 0..parities.count {
        add_parity(rack, field, parities, k, offset, shares);
    }
}
