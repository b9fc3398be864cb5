// Lines modulo a level, on which the modular group acts from the right.
ghost use Rattle.std.specs.Prelude.{◌≡◌};
ghost use Rattle.levels.specs.Lines.{IsLine, scaled, better, least, sheared, turned};
ghost use Rattle.levels.specs.Vectors.{first, alike};
ghost use Rattle.levels.specs.laws.Lines.{line_laws_by};
ghost use Rattle.levels.specs.laws.Vectors.{combine};

use crate::level::Level;
use crate::vectors::{Vector, Vectors};
use modular::action::Action;

mod maker;

// A line is kept as the least of its vectors.
#[derive(Clone, Copy)]
pub struct Lines {
    vectors: Vectors,
}

// The multiple of v by u. The level comes first here and below: a struct of a level and a vector would be taken apart again at
// once, since only vectors are kept and compared.
fn scaled(level: Level, u: u8, v: Vector) -> Vector
    ensures { result ≡ scaled level.n u v }
{
    Vector {
        c: level.product(u, v.c),
        d: level.product(u, v.d),
    }
}

// The multiple of v by u if u is coprime to the level and that multiple comes before `best`, and else `best`.
// Most multiples come later, so this is tested first.
fn better(level: Level, u: u8, v: Vector, best: Vector) -> Vector
    ensures { result ≡ better level.n u v best }
{
    let multiple = scaled(level, u, v);
    if multiple < best && level.coprime(u) {
        multiple
    } else {
        best
    }
}

// The least multiple of v by a number coprime to the level.
fn least(level: Level, v: Vector) -> Vector
    ensures { result ≡ least level.n v }
{
    let mut best = Vector {
        c: level.residue(v.c),
        d: level.residue(v.d),
    };
    for u in 0..level.value() {
        best = better(level, u, v, best);
    }
    best
}

impl Action for Lines {
    type Record = Vector;

    ghost point = { λ a. IsLine a.vectors.level.n };

    ghost start = { λ a. first a.vectors.level.n };

    ghost step_t = { λ a. sheared a.vectors.level.n };

    ghost step_s = { λ a. turned a.vectors.level.n };

    ghost agrees = { λ _. alike };

    ghost laws = { λ a. line_laws_by a.vectors.level.n a.vectors.level.ok.0 (combine a.vectors.level.n a.vectors.level.ok.0) };

    fn first(&self) -> Vector {
        self.vectors.first()
    }

    fn t(&self, v: Vector) -> Vector {
        least(self.vectors.level, self.vectors.t(v))
    }

    fn s(&self, v: Vector) -> Vector {
        least(self.vectors.level, self.vectors.s(v))
    }

    fn same(&self, v: Vector, w: Vector) -> bool {
        self.vectors.same(v, w)
    }
}
