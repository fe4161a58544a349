// Clearing a slot for as long as each put is done.
ghost use Rattle.std.specs.Prelude.{◌≡◌};
ghost use Rattle.rack.specs.Cleared.{Clears};

use crate::rack::Rack;

/// Puts 0 at each offset below `until` of a slot, as `clear_slot` does, for as long as each put is done. False, and nothing done, where
/// the slot is outside, its module out, or `until` past the length. Over a rack that is not valid a put may not be done: then it ends
/// there, and answers false.
// It answers a bool since the trait's `put` does. Inlined, as what calls it in pool is: over a rack that is a local value, as in `lay`,
// the numbers of the rack are then not read again for each symbol.
#[inline(always)]
pub fn try_clear_slot<R: Rack>(rack: &mut R, module: u16, slot: u16, until: u16) -> bool
    ensures { R.valid rack.old → Clears (R.meaning rack.old) (R.meaning rack.new) «module» slot until result × R.valid rack.new }
{
    if module >= rack.modules()
        || slot >= rack.slots()
        || until > rack.length()
        || !rack.ask(module)
    {
        return false;
    }
    for offset in 0..until {
        // Over a rack that is valid each of these is done. A loop that may end here is not made into masked stores, which take three
        // times as long.
        if !rack.put(module, slot, offset, 0) {
            return false;
        }
    }
    true
}
