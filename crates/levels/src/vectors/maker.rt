// How the action on vectors is made: a file of its own, since the promise is about the impl of the action.
// The makers of the three actions are a line each and differ in what they promise: one generic maker would need a trait for the
// promise alone, and each impl of it as many lines as stand here.
ghost use Rattle.std.specs.Prelude.{◌≡◌, MatchResult};
ghost use Rattle.levels.specs.contracts.vectors.VectorsAction.TheImpl.{ghosts as action};
ghost use Rattle.levels.specs.Levels.{Declined};
ghost use Rattle.levels.specs.Vectors.{VectorsAt};

use crate::level::{Level, Refusal};
use crate::vectors::Vectors;

impl Vectors {
    // The action at a level from 1 to 200. Any other number is declined.
    pub fn new(level: u32) -> Result<Vectors, Refusal>
        ensures { MatchResult result (λ a. (a.level.n ≡ level) × VectorsAt level (action.point a) (action.start a) (action.step_t a) (action.step_s a)) (Declined level) }
    {
        Ok(Vectors {
            level: Level::new(level)?,
        })
    }

    // The level n.
    pub fn level(&self) -> u8
        ensures { result ≡ self.now.level.n }
    {
        self.level.value()
    }
}
