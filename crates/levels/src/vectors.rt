// Vectors modulo a level, on which the modular group acts from the right.
ghost use Rattle.levels.specs.Vectors.{Primitive, first, sheared, turned, alike};
ghost use Rattle.levels.specs.laws.Vectors.{vector_laws_by, combine};

use crate::level::Level;
use modular::action::Action;

mod maker;

// The row c, d. Vectors are ordered by c, and then by d.
#[derive(Clone, Copy, Debug, PartialEq, Eq, PartialOrd, Ord)]
pub struct Vector {
    pub c: u8,
    pub d: u8,
}

#[derive(Clone, Copy)]
pub struct Vectors {
    pub(crate) level: Level,
}

// Each action of this crate names its own definitions, so what its impl says is alike in form alone.
impl Action for Vectors {
    type Record = Vector;

    ghost point = { λ a. Primitive a.level.n };

    ghost start = { λ a. first a.level.n };

    ghost step_t = { λ a. sheared a.level.n };

    ghost step_s = { λ a. turned a.level.n };

    ghost agrees = { λ _. alike };

    ghost laws = { λ a. vector_laws_by a.level.n a.level.ok.0 (combine a.level.n a.level.ok.0) };

    fn first(&self) -> Vector {
        Vector {
            c: 0,
            d: self.level.residue(1),
        }
    }

    fn t(&self, v: Vector) -> Vector {
        Vector {
            c: self.level.residue(v.c),
            d: self.level.sum(v.c, v.d),
        }
    }

    fn s(&self, v: Vector) -> Vector {
        Vector {
            c: self.level.residue(v.d),
            d: self.level.negative(v.c),
        }
    }

    fn same(&self, v: Vector, w: Vector) -> bool {
        v == w
    }
}
