// Whether links could have been grown from an action.
ghost use Rattle.std.specs.Prelude.{◌≡◌, ◌+◌, ◌*◌, ◌==◌, true, false, length, MatchOption};
ghost use Rattle.modular.specs.declared.letter.Letter.TheVariants.{T, S};
ghost use Rattle.table.specs.Links.{edge, next};
ghost use Rattle.table.specs.SoundTest.{fits, counted, lawful, fair, swept, sound};

use crate::edges::Edge;
use crate::links::Links;
use modular::letter::Letter;

impl<'a> Links<'a> {
    // How many rows are reached after an edge, where `before` rows are reached before it. The edge leads to one of those, or
    // to the next one, and then that one names it; else the links are not sound.
    fn reached_by(self, by: Edge, before: u16) -> Option<u16>
        ensures { MatchOption result (fits self.entry.links.now (edge by.row by.letter) before ≡ false)
            (λ n. (fits self.entry.links.now (edge by.row by.letter) before ≡ true) × (n ≡ counted self.entry.links.now (edge by.row by.letter) before)) }
    {
        let target = self.at(by.row).target(by.letter)?;
        if target >= self.rows() {
            None
        } else if target < before {
            Some(before)
        } else if target == before && self.named(target).number() == by.number() {
            Some(before + 1)
        } else {
            None
        }
    }

    // S and then T.
    pub fn s_then_t(self, row: u16) -> u16
        ensures { result ≡ next self.entry.links.now T (next self.entry.links.now S row) }
    {
        self.next(Letter::T, self.next(Letter::S, row))
    }

    // S twice.
    pub fn s_twice(self, row: u16) -> u16
        ensures { result ≡ next self.entry.links.now S (next self.entry.links.now S row) }
    {
        self.next(Letter::S, self.next(Letter::S, row))
    }

    // S four times leads back, and S and then T, three times over, leads where S twice does. S four times comes first: with it
    // last, the test of stored links was seen to take a tenth to a quarter more time.
    fn is_lawful(self, row: u16) -> bool
        ensures { result ≡ lawful self.entry.links.now row }
    {
        let two = self.s_twice(row);
        let four = self.s_twice(two);
        let six = self.s_then_t(self.s_then_t(self.s_then_t(row)));
        four == row && six == two
    }

    // How many rows are reached after both edges of a row, unless the row or one of its edges shows that the links are not
    // sound.
    fn reached_after(self, row: u16, before: u16) -> Option<u16>
        ensures { MatchOption result (fair self.entry.links.now row before ≡ false)
            (λ n. (fair self.entry.links.now row before ≡ true)
            × (n ≡ counted self.entry.links.now (2 * row + 1) (counted self.entry.links.now (2 * row) before))) }
    {
        if row >= before || !self.is_lawful(row) {
            return None;
        }
        let letter = Letter::T;
        let half = self.reached_by(Edge { row, letter }, before)?;
        let letter = Letter::S;
        self.reached_by(Edge { row, letter }, half)
    }

    // How many rows one pass over them reaches, from row 0 on, unless one of them shows that the links are not sound.
    fn reached(self) -> Option<u16>
        ensures { MatchOption result (swept self.entry.links.now (length self.entry.links.now) 0 1 ≡ false)
            (λ n. swept self.entry.links.now (length self.entry.links.now) 0 1 ≡ (n == length self.entry.links.now)) }
    {
        let mut reached = 1;
        for row in 0..self.rows() {
            reached = self.reached_after(row, reached)?;
        }
        Some(reached)
    }

    // Whether row 0 names no edge, and one pass over the rows reaches them all in their order.
    pub fn is_sound(self) -> bool
        ensures { result ≡ sound self.entry.links.now }
    {
        0 < self.rows() && self.named(0).number() == 0 && self.reached() == Some(self.rows())
    }
}
