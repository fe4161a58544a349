// What is printed for a script.
ghost use Rattle.std.specs.Prelude.{◌≡◌, ℕ, ◌<◌, true, length, IfOk, None, slice_index};
ghost use Rattle.rack.specs.Laid.{blank, fair};
ghost use Rattle.player.specs.Answers.{state, nothing, bare};
ghost use Rattle.player.specs.Sessions.{PlaysOn};
ghost use Rattle.player.specs.Transcripts.{lines, Printed};

use crate::request::RackRequest;
use crate::session::Session;
use rack::{FlatRack, TurningRack};
use script::command::RackKind;
use script::language::Language;
use std::alloc::{AllocError, Global};

// Numbers the pages of a map in order.
fn ordered(heap: Global, pages: u16) -> Result<Vec<u16>, AllocError>
    ensures { IfOk result (λ v. (length v.items ≡ pages) × ((k : ℕ) → k < pages → slice_index v.items k ≡ k)) }
{
    (0..pages).collect(heap)
}

impl<L: Language> Session<'_, L> {
    // Makes the rack that is asked for, over memory of its own, and plays the lines for it.
    fn play_on(&mut self, request: RackRequest) -> Result<Option<RackRequest>, AllocError>
        requires { fair request.size ≡ true }
        ensures { IfOk result (PlaysOn L.writes self.old (bare (blank request.size)) self.new) }
    {
        let RackRequest { kind, size } = request;
        let slots_in_all = usize::from(size.modules) * usize::from(size.slots);
        let length = usize::from(size.length);
        match kind {
            RackKind::Flat => {
                let mut cells = vec![in self.heap; 0u16; slots_in_all * length]?;
                let rack = FlatRack::new(&mut cells, size);
                self.play(Some(rack))
            }
            RackKind::Turning => {
                let mut cells = vec![in self.heap; 0u16; (slots_in_all + 1) * length]?;
                let mut map = ordered(self.heap, size.modules * size.slots + 1)?;
                let rack = TurningRack::new(&mut cells, &mut map, size);
                self.play(Some(rack))
            }
        }
    }
}

// A script begins with no rack.
fn no_rack<'a>() -> Option<FlatRack<'a>>
    ensures { result ≡ None }
{
    None
}

/// The lines of a script that are not passed over, each with its answer, in a language.
pub fn transcript<L: Language>(heap: Global, script: &[u8]) -> Result<Vec<u8>, AllocError>
    ensures { IfOk result (λ v. Printed L.writes (state None nothing) (lines script.now) v.items) }
{
    let mut session = Session::<L>::new(heap, script);
    let mut asked = session.play(no_rack())?;
    while let Some(request) = asked {
        asked = session.play_on(request)?;
    }
    Ok(session.out)
}
