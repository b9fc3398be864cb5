// The shape of a finished table.
ghost use Rattle.std.specs.Prelude.{◌≡◌, ◌≤◌, length};
ghost use Rattle.table.specs.Shapes.{is_low, cusps, e2, e3, shape};

use crate::links::Links;
use modular::letter::Letter;

// How many rows and T-cycles there are, the rows that S fixes and those that S and then T fix, and twelve times the genus that
// these numbers give.
#[derive(Clone, Copy, Debug, PartialEq, Eq)]
pub struct Shape {
    pub rows: usize,
    pub cusps: usize,
    pub e2: usize,
    pub e3: usize,
    pub genus12: i64,
}

impl Shape {
    // The shape of a table with these links.
    pub(crate) fn of(links: Links) -> Shape
        ensures { result ≡ shape links.entry.links.now }
    {
        let rows = usize::from(links.rows());
        let cusps = links.cusps();
        let e2 = links.e2();
        let e3 = links.e3();
        let genus12 = (12 + rows) as i64 - (3 * e2 + 4 * e3 + 6 * cusps) as i64;
        Shape {
            rows,
            cusps,
            e2,
            e3,
            genus12,
        }
    }
}

impl<'a> Links<'a> {
    // Whether a row is the lowest of its T-cycle: T leads back to it before it leads to a lower row.
    fn is_low(self, row: u16) -> bool
        ensures { result ≡ is_low self.entry.links.now row }
    {
        let mut at = self.next(Letter::T, row);
        for _ in 0..self.rows() {
            if at <= row {
                return at == row;
            }
            at = self.next(Letter::T, at);
        }
        true
    }

    // How many T-cycles there are, each counted at its lowest row. A chain here and twice below: one function over the test would
    // need a clause on each closure, and is no shorter.
    fn cusps(self) -> usize
        ensures value { result ≡ cusps self.entry.links.now }
        ensures most { result ≤ length self.entry.links.now }
    {
        (0..self.rows()).filter(|row| self.is_low(*row)).count()
    }

    // How many rows S fixes.
    fn e2(self) -> usize
        ensures value { result ≡ e2 self.entry.links.now }
        ensures most { result ≤ length self.entry.links.now }
    {
        (0..self.rows())
            .filter(|row| self.next(Letter::S, *row) == *row)
            .count()
    }

    // How many rows S and then T fix.
    fn e3(self) -> usize
        ensures value { result ≡ e3 self.entry.links.now }
        ensures most { result ≤ length self.entry.links.now }
    {
        (0..self.rows())
            .filter(|row| self.s_then_t(*row) == *row)
            .count()
    }
}
