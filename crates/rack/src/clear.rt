// What uses a rack, and knows only the trait.
ghost use Rattle.std.specs.Prelude.{◌≡◌};
ghost use Rattle.rack.specs.Cleared.{Clears};
ghost use Rattle.rack.specs.Laid.{blank};

use crate::rack::Rack;

/// The symbol at a place; 0 where the place is outside or its module out.
pub fn symbol<R: Rack>(rack: &R, module: u16, slot: u16, offset: u16) -> u16
    ensures { R.valid rack.now → result ≡ (R.meaning rack.now).symbol «module» slot offset }
{
    rack.get(module, slot, offset).unwrap_or(0)
}

/// Puts 0 at each offset below `until` of a slot. False, and nothing done, where the slot is outside, its module out, or
/// `until` past the length.
// It answers a bool since the trait's `put` does. A put that is not done, as may be over a rack that is not valid, does not end it;
// `try_clear_slot` ends there, and takes less time over a flat rack.
pub fn clear_slot<R: Rack>(rack: &mut R, module: u16, slot: u16, until: u16) -> bool
    ensures { R.valid rack.old → Clears (R.meaning rack.old) (R.meaning rack.new) «module» slot until result × R.valid rack.new }
{
    if module >= rack.modules()
        || slot >= rack.slots()
        || until > rack.length()
        || !rack.ask(module)
    {
        return false;
    }
    for offset in 0..until {
        let _ = rack.put(module, slot, offset, 0);
    }
    true
}

#[cfg(test)]
mod tests {
    use super::clear_slot;
    use crate::rack::Rack;
    use crate::size::Size;
    use crate::try_clear_slot;

    // A rack that is never valid, of which no more is promised than its four numbers: it refuses a put at offset 1, and does the
    // others inside.
    #[derive(Drop)]
    struct Refusing {
        size: Size,
        /// a bit for each offset: whether a put at it was done
        done: u8,
    }

    impl Refusing {
        fn new() -> Refusing {
            let size = Size {
                order: 256,
                modules: 1,
                slots: 1,
                length: 4,
            };
            Refusing { size, done: 0 }
        }
    }

    impl Rack for Refusing {
        ghost valid = { λ x. ⊥ };

        ghost meaning = { λ x. blank x.size };

        ghost bounded = { λ x never. absurd never };

        fn order(&self) -> u16 {
            self.size.order
        }

        fn modules(&self) -> u16 {
            self.size.modules
        }

        fn slots(&self) -> u16 {
            self.size.slots
        }

        fn length(&self) -> u16 {
            self.size.length
        }

        fn ask(&self, module: u16) -> bool {
            module < self.size.modules
        }

        fn get(&self, _module: u16, _slot: u16, _offset: u16) -> Option<u16> {
            None
        }

        fn put(&mut self, _module: u16, _slot: u16, offset: u16, _symbol: u16) -> bool {
            if offset == 1 || offset >= 4 {
                return false;
            }
            self.done |= 1 << offset;
            true
        }

        fn pull(&mut self, _module: u16) -> bool {
            false
        }

        fn fit(&mut self, _module: u16) -> bool {
            false
        }
    }

    #[test]
    fn clear_slot_goes_on_past_a_refused_put(rt: HostRuntime) {
        let mut rack = Refusing::new();
        assert!(rt; clear_slot(&mut rack, 0, 0, 4));
        assert!(rt; rack.done == 0b1101);
        assert!(rt; !clear_slot(&mut rack, 0, 0, 5));
    }

    #[test]
    fn try_clear_slot_ends_at_a_refused_put(rt: HostRuntime) {
        let mut rack = Refusing::new();
        assert!(rt; !try_clear_slot(&mut rack, 0, 0, 4));
        assert!(rt; rack.done == 0b0001);
        assert!(rt; try_clear_slot(&mut rack, 0, 0, 1));
    }
}
