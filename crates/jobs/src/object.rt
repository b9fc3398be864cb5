// Making the object of a job.
ghost use Rattle.std.specs.Prelude.{◌≡◌, MatchResult};
ghost use Rattle.jobs.specs.Objects.{kind_of, level_of};
ghost use Rattle.levels.specs.Levels.{Declined};

use crate::job::{Kind, Object};
use levels::level::Refusal;
use levels::lines::Lines;
use levels::matrices::Matrices;
use levels::vectors::Vectors;

impl Object {
    // The action of a kind at a level, unless there is no such level.
    pub fn new(kind: Kind, level: u32) -> Result<Object, Refusal>
        ensures { MatchResult result (λ o. (kind_of o ≡ kind) × (level_of o ≡ level)) (Declined level) }
    {
        match kind {
            Kind::Lines => Ok(Object::Lines(Lines::new(level)?)),
            Kind::Vectors => Ok(Object::Vectors(Vectors::new(level)?)),
            Kind::Matrices => Ok(Object::Matrices(Matrices::new(level)?)),
        }
    }
}
