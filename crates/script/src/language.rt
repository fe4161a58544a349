// Languages of scripts.
ghost use Rattle.std.specs.Prelude.{ℕ, List};

use crate::command::Command;
use crate::parse::{command_of, parse, split_name};

/// A language of scripts: the lines that write its commands.
pub trait Language {
    ghost use Rattle.script.specs.declared.command.Command.{Command};
    ghost use Rattle.script.specs.Script.{Understood};

    /// that a line writes a command
    ghost writes: { List ℕ → Command → Type 0 };

    /// The command that a line writes, if it writes one.
    fn parse(line: &[u8]) -> Option<Command>
        ensures { Understood writes line.now result };
}

/// The language of all commands.
pub struct AllCommands;

impl Language for AllCommands {
    ghost use Rattle.script.specs.Script.{Writes};

    ghost writes = { Writes };

    fn parse(line: &[u8]) -> Option<Command> {
        parse(line)
    }
}

/// The language of the commands of plans, labels and racks alone.
pub struct WithoutPools;

impl Language for WithoutPools {
    ghost use Rattle.script.specs.Script.{WritesWithoutPools};

    ghost writes = { WritesWithoutPools };

    fn parse(line: &[u8]) -> Option<Command> {
        let (name, text) = split_name(line)?;
        if name.is_of_pools() {
            return None;
        }
        command_of(name, text).filter(|command| !command.is_of_pools())
    }
}
