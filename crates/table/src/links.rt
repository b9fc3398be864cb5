// The links of a table, lent for reading.
ghost use Rattle.std.specs.Prelude.{◌≡◌, ◌≤◌, length};
ghost use Rattle.table.specs.Links.{at, next};

use crate::link::{Link, next};
use modular::letter::Letter;

// No more links than a table can have, so that row numbers, edge numbers and counts of rows never wrap.
#[derive(Clone, Copy)]
pub struct Links<'a> {
    links: &'a [Link],
    ghost few: { length links.now ≤ 65000 },
}

impl<'a> Links<'a> {
    // The links of a list that is short enough.
    pub fn of(links: &'a [Link]) -> Links<'a>
        requires { length links.now ≤ 65000 }
        ensures { result.links.now ≡ links.now }
    {
        Links { links }
    }

    // The number of rows.
    pub fn rows(self) -> u16
        ensures { result ≡ length self.entry.links.now }
    {
        self.links.len() as u16
    }

    // The link of a row; an empty one where there is no such row.
    pub fn at(self, row: u16) -> Link
        ensures { result ≡ at self.entry.links.now row }
    {
        match self.links.get(usize::from(row)) {
            Some(link) => *link,
            None => Link::empty(0, Letter::T),
        }
    }

    // Where the step of a letter leads from a row.
    pub fn next(self, letter: Letter, row: u16) -> u16
        ensures { result ≡ next self.entry.links.now letter row }
    {
        next(self.links, letter, row)
    }
}
