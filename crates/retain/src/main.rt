//! Plays the script on standard input, of plans, labels and racks alone, and prints what each line answers.
#![tactic(auto)]

ghost use Rattle.std.specs.Prelude.{IfOk, None};
ghost use Rattle.player.specs.Transcripts.{lines};
ghost use Rattle.retain.specs.Benches.{bench, Printed};

use script::language::WithoutPools;
use std::alloc::{AllocError, Global};
use std::io;
use std::io::{Read, Write};

// The lines of a script that are not passed over, each with its answer.
fn transcript(heap: Global, script: &[u8]) -> Result<Vec<u8>, AllocError>
    ensures { IfOk result (λ v. Printed (bench None None) (lines script.now) v.items) }
{
    player::transcript::transcript::<WithoutPools>(heap, script)
}

// The program `sample` is the same with all commands: what both do is in `transcript`, and a program needs a main of its own.
fn main(rt: HostRuntime) -> io::Result<()> {
    let heap = rt.alloc();
    let mut input = Vec::new(heap);
    rt.stdin().read_to_end(&mut input)?;
    let out = transcript(heap, input.as_slice())?;
    rt.stdout().write_all(out.as_slice())
}
