// A script that is being played.
ghost use Rattle.std.specs.Prelude.{◌≡◌, [], ◌∷◌, ◌++◌, codes, None, OnOk};

use layout::plan::Plan;
use std::alloc::{AllocError, Global};
use std::marker::PhantomData;

/// A script that is being played in a language.
#[derive(Drop)]
pub struct Session<'s, L> {
    pub heap: Global,
    /// what is printed so far
    pub out: Vec<u8>,
    /// the plan in use
    pub plan: Option<Plan>,
    /// the text that is still to be played
    pub left: &'s [u8],
    pub language: PhantomData<L>,
}

impl<'s, L> Session<'s, L> {
    /// The session before the first line of a script.
    pub fn new(heap: Global, script: &'s [u8]) -> Session<'s, L>
        ensures out { result.out.items ≡ [] }
        ensures plan { result.plan ≡ None }
        ensures left { result.left.now ≡ script.now }
    {
        Session {
            heap,
            out: Vec::new(heap),
            plan: None,
            left: script,
            language: PhantomData,
        }
    }

    /// Prints a line with its answer.
    pub fn print(&mut self, line: &[u8], text: &str) -> Result<(), AllocError>
        ensures out { OnOk result (self.new.out.items ≡ self.old.out.items ++ (line.now ++ (codes ": " ++ (text.now ++ 10 ∷ [])))) }
        ensures plan { self.new.plan ≡ self.old.plan }
        ensures left { self.new.left.now ≡ self.old.left.now }
    {
        self.out.extend_from_slice(line)?;
        self.out.extend_from_slice(b": ")?;
        self.out.extend_from_slice(text.as_bytes())?;
        self.out.extend_from_slice(b"\n")?;
        Ok(())
    }
}
