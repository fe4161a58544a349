//! Plays the script on standard input, pools included, and prints what each line answers. The stored script is a sample of
//! random ones.
#![tactic(auto)]

ghost use Rattle.std.specs.Prelude.{IfOk, None};
ghost use Rattle.player.specs.Answers.{state, nothing};
ghost use Rattle.player.specs.Transcripts.{lines, Printed};
ghost use Rattle.script.specs.Script.{Writes};

use script::language::AllCommands;
use std::alloc::{AllocError, Global};
use std::io;
use std::io::{Read, Write};

// The lines of a script that are not passed over, each with its answer.
fn transcript(heap: Global, script: &[u8]) -> Result<Vec<u8>, AllocError>
    ensures { IfOk result (λ v. Printed Writes (state None nothing) (lines script.now) v.items) }
{
    player::transcript::transcript::<AllCommands>(heap, script)
}

fn main(rt: HostRuntime) -> io::Result<()> {
    let heap = rt.alloc();
    let mut input = Vec::new(heap);
    rt.stdin().read_to_end(&mut input)?;
    let out = transcript(heap, input.as_slice())?;
    rt.stdout().write_all(out.as_slice())
}
