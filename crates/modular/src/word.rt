// Words in the letters T and S.
ghost use Rattle.modular.specs.Matrix.{rows};
ghost use Rattle.modular.specs.Words.{matrix, Held};
ghost use Rattle.std.specs.Option.{SomeIff};

use crate::letter::Letter;
use crate::matrix;
use crate::matrix::Matrix;

// The product of the letters from left to right, unless an entry on the way does not fit.
pub fn matrix_of(word: &[Letter]) -> Option<Matrix>
    ensures { SomeIff result (Held word.now) (rows (matrix word.now)) }
{
    let mut m = matrix::IDENTITY;
    for letter in word {
        m = matrix::product(m, letter.matrix())?;
    }
    Some(m)
}
