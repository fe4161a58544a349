// What goes over modules and slots of a rack.
ghost use Rattle.std.specs.Prelude.{◌≡◌, ◌+◌, not};
ghost use Rattle.pool.specs.Blocks.{Blocked, zeroed};
ghost use Rattle.pool.specs.Book.{lowest, refuse_at};
ghost use Rattle.pool.specs.Openings.{why_not};
ghost use Rattle.layout.specs.declared.refusal.Refusal.TheVariants.{ModuleOut};

use layout::refusal::Refusal;
use rack::rack::Rack;
use rack::try_clear_slot;

/// Whether each of the first modules is fitted; else the lowest that is out refuses.
pub(crate) fn all_fitted<R: Rack>(rack: &R, modules: u16) -> Result<(), Refusal>
    ensures { R.valid rack.now → why_not result ≡ refuse_at (lowest (λ m. not ((R.meaning rack.now).fitted m)) modules) ModuleOut }
{
    match lowest_out(rack, modules) {
        Some(module) => Err(Refusal::ModuleOut(module)),
        None => Ok(()),
    }
}

/// The lowest of the first modules that is out.
fn lowest_out<R: Rack>(rack: &R, modules: u16) -> Option<u16>
    ensures { R.valid rack.now → result ≡ lowest (λ m. not ((R.meaning rack.now).fitted m)) modules }
{
    (0..modules).find(|module| !rack.ask(*module))
}

/// Puts 0 at the offsets below `until` of some slots of a module.
// Inlined, as `try_clear_slot` is, and for the same reason.
#[inline(always)]
fn clear_slots<R: Rack>(rack: &mut R, module: u16, first: u16, last: u16, until: u16)
    ensures { R.valid rack.old → Blocked «module» («module» + 1) first last until (R.meaning rack.old) → (R.meaning rack.new ≡ zeroed «module» («module» + 1) first last until (R.meaning rack.old)) × R.valid rack.new }
{
    for slot in first..last {
        let _ = try_clear_slot(rack, module, slot, until);
    }
}

/// Puts 0 at the offsets below `until` of some slots of some modules.
#[inline(always)]
pub(crate) fn clear_block<R: Rack>(
    rack: &mut R,
    low: u16,
    high: u16,
    first: u16,
    last: u16,
    until: u16,
)
    ensures { R.valid rack.old → Blocked low high first last until (R.meaning rack.old) → (R.meaning rack.new ≡ zeroed low high first last until (R.meaning rack.old)) × R.valid rack.new }
{
    for module in low..high {
        clear_slots(rack, module, first, last, until);
    }
}
