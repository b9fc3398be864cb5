// Why a call of a table is declined.
ghost use Rattle.std.specs.Prelude.{◌≡◌};
ghost use Rattle.table.specs.Refusals.{number_of, place_of};

use thiserror::Error;

#[derive(Clone, Copy, Debug, PartialEq, Eq, Error)]
pub enum Refusal {
    #[error("an entry or an entry limit is out of range")]
    Range,
    #[error("the determinant is not 1")]
    Determinant,
    #[error("rows and links are none, too many, unequal, or not as many as at open")]
    Memory,
    #[error("a new record and no free row")]
    NoFreeRow,
    #[error("every edge is filled")]
    NoEdgeLeft,
    #[error("an edge is not filled")]
    Unfilled,
    #[error("the links are not sound")]
    Unsound,
    #[error("neither T nor S at place {0} of the word")]
    NotALetter(usize),
    #[error("the edge that the letter at place {0} follows is not filled")]
    EmptyEdge(usize),
    #[error("a word that is too long, or an output that is too short for its word")]
    Length,
    #[error("no such row or generator")]
    NoSuch,
    #[error("an entry beyond the limit")]
    Wide,
}

impl Refusal {
    // The number under which the refusal is known outside, which the rules of the project fix.
    pub fn number(self) -> u8
        ensures { result ≡ number_of self }
    {
        match self {
            Refusal::Range => 3,
            Refusal::Determinant => 6,
            Refusal::Memory => 7,
            Refusal::NoFreeRow => 8,
            Refusal::NoEdgeLeft => 9,
            Refusal::Unfilled => 10,
            Refusal::Unsound => 11,
            Refusal::NotALetter(_) => 12,
            Refusal::EmptyEdge(_) => 13,
            Refusal::Length => 14,
            Refusal::NoSuch => 15,
            Refusal::Wide => 16,
        }
    }

    // The letter at fault, counted from 0; 0 where no letter is, as it is printed.
    pub fn place(self) -> usize
        ensures { result ≡ place_of self }
    {
        match self {
            Refusal::NotALetter(at) | Refusal::EmptyEdge(at) => at,
            _ => 0,
        }
    }
}
