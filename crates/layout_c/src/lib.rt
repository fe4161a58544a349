//! The layout of a retain pool for C: a static library, whose calls are those of the layout.
#![tactic(auto)]

ghost use Rattle.layout.specs.Exported.{number_of, place_number, counts_number};
ghost use Rattle.layout.specs.Labels.{label_refusal};
ghost use Rattle.layout.specs.Refusals.{plan_refusal};
ghost use Rattle.std.specs.Prelude.{◌≡◌};

use layout::export;

/// 0 for a plan, or the number of the refusal.
#[unsafe(no_mangle)]
pub extern "C" fn retain_plan_check(order: u16, d: u16, r: u16, d2: u16, r2: u16, len: u16) -> u32
    ensures { result ≡ number_of (plan_refusal order d r d2 r2 len) }
{
    export::retain_plan_check(order, d, r, d2, r2, len)
}

/// 0 for a label, or the number of the refusal.
#[unsafe(no_mangle)]
pub extern "C" fn retain_label_check(bytes: &[u8]) -> u32
    ensures { result ≡ number_of (label_refusal bytes.now) }
{
    export::retain_label_check(bytes)
}

/// The place of a chunk, module * 256 + slot; 4,294,967,295 for a refused plan or chunk.
#[unsafe(no_mangle)]
pub extern "C" fn retain_chunk_place(
    order: u16,
    d: u16,
    r: u16,
    d2: u16,
    r2: u16,
    len: u16,
    chunk: u16,
) -> u32
    ensures { result ≡ place_number (plan_refusal order d r d2 r2 len) d d2 chunk }
{
    export::retain_chunk_place(order, d, r, d2, r2, len, chunk)
}

/// What a changeover reads, data * 65,536 + parities; 4,294,967,295 for a refused plan.
#[unsafe(no_mangle)]
pub extern "C" fn retain_counts(order: u16, d: u16, r: u16, d2: u16, r2: u16, len: u16) -> u32
    ensures { result ≡ counts_number (plan_refusal order d r d2 r2 len) d r d2 r2 }
{
    export::retain_counts(order, d, r, d2, r2, len)
}
