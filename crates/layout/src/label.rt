// The label of a pool, by which it is opened again.
ghost use Rattle.std.specs.Prelude.{◌≡◌, ◌/◌, ◌%◌, ◌↔◌, ◌<◌, ℕ, [], ◌∷◌, length, slice_index, IsSome, IfSome};
ghost use Rattle.std.specs.List.{flat_map};
ghost use Rattle.layout.specs.Labels.{Reads, Writes, ReadsBack, label_of, flag, number, packed};

use crate::plan::Plan;
use crate::refusal::Refusal;

/// The number of bytes of a label.
pub const LABEL_BYTES: usize = 16;

/// What a label says: the plan of a pool, and whether the pool is after its changeover.
#[derive(Clone, Copy)]
pub struct Label {
    pub plan: Plan,
    pub after: bool,
}

impl Label {
    /// Reads a label of 16 bytes.
    pub fn read(bytes: &[u8]) -> Result<Label, Refusal>
        ensures { Reads bytes.now result }
    {
        let Some(numbers) = numbers_of(bytes) else {
            return Err(Refusal::NotALabel);
        };
        let [1, order, d, r, d2, r2, len, flag @ 0..=1] = numbers else {
            return Err(Refusal::NotALabel);
        };
        let plan = Plan::new(order, d, r, d2, r2, len)?;
        Ok(Label {
            plan,
            after: flag == 1,
        })
    }

    /// Writes the label into a buffer of 16 bytes.
    pub fn write(&self, bytes: &mut [u8]) -> Result<(), Refusal>
        ensures writes { Writes self.now bytes.old bytes.new result }
        ensures back { ReadsBack self.now }
    {
        if bytes.len() != LABEL_BYTES {
            return Err(Refusal::NotALabel);
        }
        self.put(bytes);
        Ok(())
    }

    // Fills a buffer of 16 bytes with the label.
    #[tactic(auto, using(crate::proofs::Packing::flag_byte))]
    fn put(&self, bytes: &mut [u8])
        requires { length bytes.old ≡ 16 }
        ensures { bytes.new ≡ label_of self.now }
    {
        let plan = self.plan;
        let numbers = [
            1,
            plan.order,
            plan.d,
            plan.r,
            plan.d2,
            plan.r2,
            plan.len,
            u16::from(self.after),
        ];
        bytes.copy_from_slice(pairs_of(numbers).as_flattened());
    }
}

// The bytes of the numbers of a label, two of each.
fn pairs_of(numbers: [u16; 8]) -> [[u8; 2]; 8]
    ensures { flat_map (λ pair. pair) result ≡ packed numbers }
{
    numbers.map(low_first)
}

// The bytes of a number, the low one first.
fn low_first(n: u16) -> [u8; 2]
    ensures { result ≡ n % 256 ∷ n / 256 ∷ [] }
{
    n.to_le_bytes()
}

// The numbers of a label; none where the bytes are not as many as a label has.
fn numbers_of(bytes: &[u8]) -> Option<[u16; 8]>
    ensures sized { IsSome result ↔ (length bytes.now ≡ 16) }
    ensures numbers { IfSome result (λ ns. (i : ℕ) → i < 8 → slice_index ns i ≡ number bytes.now i) }
{
    let (pairs, []) = bytes.as_chunks() else {
        return None;
    };
    let Ok(pairs) = <[[u8; 2]; 8]>::try_from(pairs) else {
        return None;
    };
    Some(pairs.map(u16::from_le_bytes))
}
