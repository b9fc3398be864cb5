// The edges of a table, and their numbers.
ghost use Rattle.std.specs.Prelude.{◌≡◌, ◌/◌, ◌<◌};
ghost use Rattle.table.specs.Generators.{is_tree};
ghost use Rattle.table.specs.Links.{aim_at, edge, letter_at};
ghost use Rattle.table.specs.SoundTest.{named};

use crate::links::Links;
use modular::letter::Letter;

// The edge of a letter from a row.
#[derive(Clone, Copy)]
pub struct Edge {
    pub row: u16,
    pub letter: Letter,
}

impl Edge {
    // The number of an edge: 2r for the T edge of row r, and 2r + 1 for its S edge. Edges are filled in this order.
    pub fn number(self) -> usize
        ensures { result ≡ edge self.row self.letter }
    {
        let first = 2 * usize::from(self.row);
        match self.letter {
            Letter::T => first,
            Letter::S => first + 1,
        }
    }

    // The edge with a number. The rules of the project number edges so, even for T and odd for S.
    pub fn numbered(number: usize) -> Edge
        requires { number < 131072 }
        ensures row { result.row ≡ number / 2 }
        ensures letter { result.letter ≡ letter_at number }
        ensures number { edge result.row result.letter ≡ number }
    {
        Edge {
            row: (number / 2) as u16,
            letter: if number % 2 == 0 {
                Letter::T
            } else {
                Letter::S
            },
        }
    }

    // The number to which an edge leads.
    pub fn aim(self, links: Links) -> u16
        ensures { result ≡ aim_at links.entry.links.now (edge self.row self.letter) }
    {
        links.at(self.row).aim(self.letter)
    }

    // Whether an edge is the one by which a row from 1 on was first reached.
    pub fn is_tree(self, links: Links) -> bool
        ensures { result ≡ is_tree links.entry.links.now (edge self.row self.letter) }
    {
        let row = self.aim(links);
        0 < row && links.named(row).number() == self.number()
    }
}

impl<'a> Links<'a> {
    // The edge by which a row says that it was first reached.
    pub fn named(self, row: u16) -> Edge
        ensures { edge result.row result.letter ≡ named self.entry.links.now row }
    {
        let link = self.at(row);
        Edge {
            row: link.parent,
            letter: link.letter,
        }
    }
}
