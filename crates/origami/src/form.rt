// The least form of a gluing.
ghost use Rattle.std.specs.Prelude.{◌≡◌};
ghost use Rattle.origami.specs.Forms.{better, least};
ghost use Rattle.origami.specs.Origamis.{form};

use crate::gluing::{Enclosed, Gluing};

// The earlier of two gluings of one degree.
fn better(a: Gluing, b: Gluing) -> Gluing
    requires { a.degree ≡ b.degree }
    ensures { result ≡ better a b }
{
    if a < b { a } else { b }
}

impl Enclosed {
    // The earliest of the readings from all squares.
    pub(crate) fn least(self) -> Gluing
        ensures { result ≡ least self.gluing }
    {
        let mut best = self.reading(0);
        for first in 1..self.gluing.degree {
            best = better(self.reading(first), best);
        }
        best
    }
}

impl Gluing {
    // The least form. A record that is no gluing since it has a neighbour that is no square is left as it is.
    pub fn least_form(self) -> Gluing
        ensures { result ≡ form self }
    {
        match self.enclosed() {
            Some(squares) => squares.least(),
            None => self,
        }
    }
}
