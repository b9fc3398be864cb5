// What a table keeps of a row besides its record.
ghost use Rattle.std.specs.Prelude.{◌≡◌};
ghost use Rattle.table.specs.Growing.{aimed};
ghost use Rattle.table.specs.Links.{aim, empty, next, target_of};

use modular::letter::Letter;

// No row: the edge is not filled yet. A link has a fixed size, so this number stands for none; `target` tells it as an option.
pub const EMPTY: u16 = 65_535;

// Where the two edges of a row lead, and the edge by which the row was first reached. Rows are told by their numbers, since
// links are stored, and read again, as they are.
#[derive(Clone, Copy, Debug, PartialEq, Eq)]
pub struct Link {
    pub t: u16,
    pub s: u16,
    pub parent: u16,
    pub letter: Letter,
}

impl Link {
    // The link of a new row: neither edge is filled yet.
    pub fn empty(parent: u16, letter: Letter) -> Link
        ensures { result ≡ empty parent letter }
    {
        Link {
            t: EMPTY,
            s: EMPTY,
            parent,
            letter,
        }
    }

    // The number to which the edge of a letter leads; `EMPTY` where it is not filled.
    pub(crate) fn aim(self, letter: Letter) -> u16
        ensures { result ≡ aim letter self }
    {
        match letter {
            Letter::T => self.t,
            Letter::S => self.s,
        }
    }

    // The row to which the edge of a letter leads, if it is filled.
    pub fn target(self, letter: Letter) -> Option<u16>
        ensures { result ≡ target_of letter self }
    {
        let row = self.aim(letter);
        (row != EMPTY).then_some(row)
    }

    // The same link, but the edge of a letter leads to a row.
    pub(crate) fn aimed(self, letter: Letter, row: u16) -> Link
        ensures { result ≡ aimed letter row self }
    {
        match letter {
            Letter::T => Link { t: row, ..self },
            Letter::S => Link { s: row, ..self },
        }
    }
}

// Where the step of a letter leads from a row; a number that is no row stays where it is.
pub fn next(links: &[Link], letter: Letter, row: u16) -> u16
    ensures { result ≡ next links.now letter row }
{
    match links.get(usize::from(row)) {
        Some(link) => link.aim(letter),
        None => row,
    }
}
