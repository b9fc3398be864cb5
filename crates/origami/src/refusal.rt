// Why an origami is not made.
ghost use Rattle.std.specs.Prelude.{◌≡◌};
ghost use Rattle.origami.specs.Refusals.{number};

use thiserror::Error;

#[derive(Clone, Copy, Debug, PartialEq, Eq, Error)]
pub enum Refusal {
    #[error("the number of squares is not 1 to 16")]
    Degree,
    #[error("a list is not each square once")]
    NotPermutation,
    #[error("a square is not reached from the first by going right and up")]
    NotReached,
}

impl Refusal {
    // The number under which the refusal is known outside, which the rules of the project fix.
    pub fn number(self) -> u8
        ensures { result ≡ number self }
    {
        match self {
            Refusal::Degree => 3,
            Refusal::NotPermutation => 4,
            Refusal::NotReached => 5,
        }
    }
}
