// The row at which a matrix is placed.
ghost use Rattle.std.specs.Prelude.{◌≡◌, ◌≤◌, true, pos, unsigned_abs};
ghost use Rattle.modular.specs.Matrix.{det, entries};
ghost use Rattle.table.specs.Placing.{upper, placed};
ghost use Rattle.table.specs.Questions.{within, placing};

use crate::limit::Limit;
use crate::links::Links;
use crate::refusal::Refusal;
use modular::letter::Letter;
use modular::matrix;
use modular::matrix::Matrix;
use numbers::divide;

impl<'a> Links<'a> {
    // From a row by a matrix whose c is 0: by T^b where a is 1, and by -T^(-b) where a is -1. S twice is -1.
    fn upper(self, m: Matrix, row: u16) -> u16
        requires { unsigned_abs (entries m).b ≤ 1000000000 }
        ensures { result ≡ upper self.entry.links.now (entries m) row }
    {
        let [[a, b], _] = m;
        if a >= 0 {
            self.t_steps(b, row)
        } else {
            self.t_steps(-b, self.s_twice(row))
        }
    }

    // Takes T^q and S off the left of a matrix, q the quotient of its first column, until its c is 0. The entries stay in range.
    fn row_of(self, m: Matrix) -> u16
        requires small { within 1000000000 (entries m) ≡ true }
        requires one { det (entries m) ≡ pos 1 }
        ensures { result ≡ placed self.entry.links.now (entries m) }
    {
        let mut m = m;
        let mut row = 0;
        while let Some((q, r)) = divide(m[0][0], m[1][0]) {
            let [[_, b], [c, d]] = m;
            row = self.next(Letter::S, self.t_steps(q, row));
            m = [[c, d], [-r, q * d - b]];
        }
        self.upper(m, row)
    }

    // The row of a matrix of determinant 1.
    pub fn place(self, m: Matrix) -> Result<u16, Refusal>
        ensures { result ≡ placing self.entry.links.now (entries m) }
    {
        if !Limit::LARGEST.holds(m) {
            return Err(Refusal::Range);
        }
        if matrix::determinant(m) != 1 {
            return Err(Refusal::Determinant);
        }
        Ok(self.row_of(m))
    }
}
