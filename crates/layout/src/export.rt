// What the calls for C answer. They take the six numbers of a plan and byte buffers, and answer plain numbers, as C has them.
// The crate layout_c exports them.
ghost use Rattle.std.specs.Prelude.{◌≡◌};
ghost use Rattle.layout.specs.Exported.{number_of, place_number, counts_number};
ghost use Rattle.layout.specs.Labels.{label_refusal};
ghost use Rattle.layout.specs.Refusals.{plan_refusal};

use crate::label::Label;
use crate::plan::Plan;

/// 0 for a plan, or the number of the refusal.
pub fn retain_plan_check(order: u16, d: u16, r: u16, d2: u16, r2: u16, len: u16) -> u32
    ensures { result ≡ number_of (plan_refusal order d r d2 r2 len) }
{
    match Plan::new(order, d, r, d2, r2, len) {
        Ok(_) => 0,
        Err(e) => u32::from(e.number()),
    }
}

/// 0 for a label, or the number of the refusal.
pub fn retain_label_check(bytes: &[u8]) -> u32
    ensures { result ≡ number_of (label_refusal bytes.now) }
{
    match Label::read(bytes) {
        Ok(_) => 0,
        Err(refusal) => u32::from(refusal.number()),
    }
}

/// The place of a chunk, module * 256 + slot; 4,294,967,295 for a refused plan or chunk.
pub fn retain_chunk_place(order: u16, d: u16, r: u16, d2: u16, r2: u16, len: u16, chunk: u16) -> u32
    ensures { result ≡ place_number (plan_refusal order d r d2 r2 len) d d2 chunk }
{
    let Ok(plan) = Plan::new(order, d, r, d2, r2, len) else {
        return u32::MAX;
    };
    match plan.chunk_place(chunk) {
        Some(place) => u32::from(place.module) * 256 + u32::from(place.slot),
        None => u32::MAX,
    }
}

/// What a changeover reads, data * 65,536 + parities; 4,294,967,295 for a refused plan.
pub fn retain_counts(order: u16, d: u16, r: u16, d2: u16, r2: u16, len: u16) -> u32
    ensures { result ≡ counts_number (plan_refusal order d r d2 r2 len) d r d2 r2 }
{
    let Ok(plan) = Plan::new(order, d, r, d2, r2, len) else {
        return u32::MAX;
    };
    let (data, parities) = plan.counts();
    u32::from(data) * 65536 + u32::from(parities)
}
