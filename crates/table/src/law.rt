// Promises about tables that are theorems about the definitions of their calls.
ghost use Rattle.std.specs.Prelude.{◌≡◌};
ghost use Rattle.table.specs.Finished.{SoundLinksLaw};
ghost use Rattle.table.specs.Runs.{EveryRunFromOpen, EveryStoredList};
ghost use Rattle.table.specs.SoundTest.{SoundTestTells};

use modular::action::Action;

// The first row of every table over an action. What the calls of a table are defined to do keeps the law over all runs: after
// open and after each call, of any sequence, accepted or declined.
pub fn first_row<A: Action>(action: &A) -> A::Record
    ensures first { result ≡ A.start action.now }
    ensures every_run { EveryRunFromOpen (A.start action.now) (A.step_t action.now) (A.step_s action.now) (A.agrees action.now) }
{
    action.first()
}

// The first row of every list of links. Sound links are an action on their row numbers, with the rows in the order of their
// least words; words lead to the row at which their matrix is placed; and the members are the products of the generators.
pub fn first_link() -> u16
    ensures first { result ≡ 0 }
    ensures law { SoundLinksLaw }
    ensures test { SoundTestTells }
    ensures stored { EveryStoredList }
{
    0
}
