// Worked examples, checked as facts about the definitions.
#![tactic(auto)]

ghost use Rattle.std.specs.Prelude.{◌≡◌};
ghost use Rattle.worked.specs.Examples.{Worked};

// How many examples there are. All of them hold, of the definitions themselves.
pub fn examples() -> u8
    ensures count { result ≡ 10 }
    ensures hold { Worked }
{
    10
}
