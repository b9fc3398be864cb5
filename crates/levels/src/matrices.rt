// Matrices of determinant 1 modulo a level, on which the modular group acts from the right.
ghost use Rattle.levels.specs.Matrices.{Unimodular, first, sheared, turned, alike};
ghost use Rattle.levels.specs.laws.Matrices.{matrix_laws};

use crate::level::Level;
use modular::action::Action;

mod maker;

// The rows a, b and c, d.
pub type Square = [[u8; 2]; 2];

#[derive(Clone, Copy)]
pub struct Matrices {
    level: Level,
}

// Each action of this crate names its own definitions, so what its impl says is alike in form alone.
impl Action for Matrices {
    type Record = Square;

    ghost point = { λ a. Unimodular a.level.n };

    ghost start = { λ a. first a.level.n };

    ghost step_t = { λ a. sheared a.level.n };

    ghost step_s = { λ a. turned a.level.n };

    ghost agrees = { λ _. alike };

    ghost laws = { λ a. matrix_laws a.level.n a.level.ok.0 };

    fn first(&self) -> Square {
        let one = self.level.residue(1);
        [[one, 0], [0, one]]
    }

    fn t(&self, m: Square) -> Square {
        let n = self.level;
        let [[a, b], [c, d]] = m;
        [[n.residue(a), n.sum(a, b)], [n.residue(c), n.sum(c, d)]]
    }

    fn s(&self, m: Square) -> Square {
        let n = self.level;
        let [[a, b], [c, d]] = m;
        [[n.residue(b), n.negative(a)], [n.residue(d), n.negative(c)]]
    }

    fn same(&self, m: Square, k: Square) -> bool {
        m == k
    }
}
