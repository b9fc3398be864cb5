// The two letters of a word.
ghost use Rattle.std.specs.Prelude.{◌≡◌};
ghost use Rattle.modular.specs.Matrix.{rows};
ghost use Rattle.modular.specs.Words.{Names, name_of, of_letter};

use crate::matrix::Matrix;
use thiserror::Error;

// T is 1 1 0 1 and S is 0 -1 1 0. T comes before S in the alphabet.
#[derive(Clone, Copy, Debug, PartialEq, Eq, PartialOrd, Ord)]
pub enum Letter {
    T,
    S,
}

impl Letter {
    pub fn matrix(self) -> Matrix
        ensures { result ≡ rows (of_letter self) }
    {
        match self {
            Letter::T => [[1, 1], [0, 1]],
            Letter::S => [[0, -1], [1, 0]],
        }
    }
}

// A character that names no letter.
#[derive(Clone, Copy, Debug, PartialEq, Eq, Error)]
#[error("{0} is neither T nor S")]
pub struct NotALetter(pub char);

// The letter that a character names.
impl TryFrom<char> for Letter {
    type Error = NotALetter;

    ghost try_from_gives = { Names };

    fn try_from(c: char) -> Result<Letter, NotALetter> {
        match c {
            'T' => Ok(Letter::T),
            'S' => Ok(Letter::S),
            _ => Err(NotALetter(c)),
        }
    }
}

// The byte that spells a letter in a text.
impl From<Letter> for u8 {
    ghost from_gives = { λ letter byte. byte ≡ name_of letter };

    fn from(letter: Letter) -> u8 {
        match letter {
            Letter::T => b'T',
            Letter::S => b'S',
        }
    }
}
