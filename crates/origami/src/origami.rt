// Origamis, on which the modular group acts: gluings, of which only the least form is kept.
ghost use Rattle.std.specs.Prelude.{◌≡◌, ◌<◌, ◌≤◌, ◌&&◌, length};
ghost use Rattle.origami.specs.Forms.{order, least};
ghost use Rattle.origami.specs.Gluings.{right_of, up_of};
ghost use Rattle.origami.specs.Origamis.{IsPoint, sheared_form, turned_form, alike};
ghost use Rattle.origami.specs.Squares.{Undone};
ghost use Rattle.origami.specs.laws.Origamis.{held_glues, origami_laws};
ghost use Rattle.std.specs.Str.{bytes_eq};

use crate::gluing::{Enclosed, Gluing};
use modular::action::Action;

mod maker;

// A gluing of 1 to 16 squares, each of them reached from the first. That right and up are permutations is said by their
// inverses, which makes it a fact that a ghost field can hold.
#[derive(Clone, Copy)]
pub struct Origami {
    gluing: Gluing,
    ghost size: { (0 < gluing.degree) × (gluing.degree ≤ 16) },
    ghost rights: { Undone gluing.degree (right_of gluing) },
    ghost ups: { Undone gluing.degree (up_of gluing) },
    ghost whole: { length (order gluing 0) ≡ gluing.degree },
}

impl Origami {
    // The gluing, of which it is known that no neighbour leaves it.
    pub(crate) fn enclosed(self) -> Enclosed
        ensures { result.gluing ≡ self.gluing }
    {
        Enclosed {
            gluing: self.gluing,
        }
    }
}

impl Action for Origami {
    type Record = Gluing;

    ghost point = { λ _. IsPoint };

    ghost start = { λ a. least a.gluing };

    ghost step_t = { λ _. sheared_form };

    ghost step_s = { λ _. turned_form };

    ghost agrees = { λ _. alike };

    ghost laws = { λ a. origami_laws a.gluing (held_glues a.gluing a.size a.rights a.ups a.whole) };

    fn first(&self) -> Gluing {
        self.enclosed().least()
    }

    fn t(&self, g: Gluing) -> Gluing {
        match g.enclosed() {
            Some(squares) => squares.sheared().least(),
            None => g,
        }
    }

    fn s(&self, g: Gluing) -> Gluing {
        match g.enclosed() {
            Some(squares) => squares.turned().least(),
            None => g,
        }
    }

    fn same(&self, g: Gluing, k: Gluing) -> bool {
        g == k
    }
}
