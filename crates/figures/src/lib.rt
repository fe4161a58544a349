//! The worked figures, shown from the rules.
#![tactic(auto)]

ghost use Rattle.figures.specs.Figures.{Figures, WorkedPools};
ghost use Rattle.std.specs.Prelude.{◌≡◌};

/// The table of worked figures holds. Answers how many lines it has.
pub fn figures() -> u8
    ensures { Figures }
{
    16
}

/// The lines of the worked pools hold: parities, and reads with modules out. Answers how many they are.
pub fn worked_pools() -> u8
    ensures table { WorkedPools }
    ensures count { result ≡ 15 }
{
    15
}
