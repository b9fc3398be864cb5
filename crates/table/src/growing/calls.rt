// The calls of a growing table: a file of its own, since what they promise is about the table's parts.
ghost use Rattle.std.specs.Prelude.{◌≡◌, IfErr, Ok, Err, MatchResult};
ghost use Rattle.std.specs.Str.{chars};
ghost use Rattle.table.specs.Growing.{FilledOn, closing, filling, following, lendable, moment, opened};
ghost use Rattle.table.specs.Runs.{EveryRunFromOpen};

use crate::counts::{Counts, Filled};
use crate::edges::Edge;
use crate::finished::Finished;
use crate::growing::rows::sought;
use crate::growing::{Growing, storable};
use crate::link::Link;
use crate::links::Links;
use crate::refusal::Refusal;
use modular::acting::step;
use modular::action::Action;
use modular::letter::Letter;

// Whether a table can be opened over so many rows and links.
fn lendable(rows: usize, links: usize) -> bool
    ensures { result ≡ lendable rows links }
{
    storable(rows) && rows == links
}

impl<A: Action> Growing<A> {
    // Opens a table over lent rows and links: writes the first record into row 0, and an empty link, and nothing else.
    pub fn open(
        action: A,
        rows: &mut [A::Record],
        links: &mut [Link],
    ) -> Result<Growing<A>, (A, Refusal)>
        ensures answer { MatchResult result (λ g. (opened (A.start action) rows.old links.old).answer ≡ Ok g.counts) (λ p. (opened (A.start action) rows.old links.old).answer ≡ Err p.1) }
        ensures action { MatchResult result (λ g. g.action ≡ action) (λ p. p.0 ≡ action) }
        ensures rows { rows.new ≡ (opened (A.start action) rows.old links.old).rows }
        ensures links { links.new ≡ (opened (A.start action) rows.old links.old).links }
        ensures every_run { EveryRunFromOpen (A.start action) (A.step_t action) (A.step_s action) (A.agrees action) }
    {
        if !lendable(rows.len(), links.len()) {
            return Err((action, Refusal::Memory));
        }
        rows[0] = action.first();
        links[0] = Link::empty(0, Letter::T);
        let counts = Counts {
            size: rows.len(),
            held: 1,
            filled: 0,
        };
        Ok(Growing { action, counts })
    }

    // Fills the lowest edge that is not filled yet: steps the record of its row, and seeks what that makes among the rows
    // held. What is not among them becomes the next row.
    pub fn fill(&mut self, rows: &mut [A::Record], links: &mut [Link]) -> Result<Filled, Refusal>
        ensures answer { result ≡ (filling (A.start self.old.action) (A.step_t self.old.action) (A.step_s self.old.action) (A.agrees self.old.action) (moment self.old.counts rows.old links.old)).answer }
        ensures memory { moment self.new.counts rows.new links.new ≡ (filling (A.start self.old.action) (A.step_t self.old.action) (A.step_s self.old.action) (A.agrees self.old.action) (moment self.old.counts rows.old links.old)).memory }
        ensures action { self.new.action ≡ self.old.action }
    {
        let Counts { size, held, filled } = self.counts;
        if !self.counts.as_lent(rows.len(), links.len()) {
            return Err(Refusal::Memory);
        }
        if filled >= 2 * held {
            return Err(Refusal::NoEdgeLeft);
        }
        let edge = Edge::numbered(filled);
        let row = usize::from(edge.row);
        let made = step(&self.action, rows[row], edge.letter);
        if let Some(found) = sought(&self.action, &rows[0..held], made) {
            links[row] = links[row].aimed(edge.letter, found as u16);
            self.counts.filled = filled + 1;
            return Ok(Filled {
                row: found,
                new: false,
            });
        }
        if held >= size {
            return Err(Refusal::NoFreeRow);
        }
        rows[held] = made;
        links[held] = Link::empty(edge.row, edge.letter);
        links[row] = links[row].aimed(edge.letter, held as u16);
        self.counts = Counts {
            size,
            held: held + 1,
            filled: filled + 1,
        };
        Ok(Filled {
            row: held,
            new: true,
        })
    }

    // Fills edges until a fill is declined, and answers why it was.
    pub fn fill_up(&mut self, rows: &mut [A::Record], links: &mut [Link]) -> Refusal
        ensures way { FilledOn (A.start self.old.action) (A.step_t self.old.action) (A.step_s self.old.action) (A.agrees self.old.action) (moment self.old.counts rows.old links.old) (moment self.new.counts rows.new links.new) }
        ensures end { (filling (A.start self.old.action) (A.step_t self.old.action) (A.step_s self.old.action) (A.agrees self.old.action) (moment self.new.counts rows.new links.new)).answer ≡ Err result }
        ensures action { self.new.action ≡ self.old.action }
    {
        loop {
            if let Err(refusal) = self.fill(rows, links) {
                return refusal;
            }
        }
    }

    // The row to which a word leads from row 0. It writes nothing.
    pub fn follow(&self, rows: &[A::Record], links: &[Link], word: &str) -> Result<u16, Refusal>
        ensures { result ≡ following (moment self.now.counts rows.now links.now) (chars word.now) }
    {
        if !self.counts.as_lent(rows.len(), links.len()) {
            return Err(Refusal::Memory);
        }
        Links::of(links).walk(self.counts.held, word)
    }
}

impl<A: Action + Drop> Growing<A> {
    // Finishes the table, which then reads the held links; a table that is not finished is given back.
    pub fn close<'a>(
        self,
        rows: &[A::Record],
        links: &'a [Link],
    ) -> Result<Finished<'a>, (Growing<A>, Refusal)>
        ensures answer { MatchResult result (λ f. closing (moment self.counts rows.now links.now) ≡ Ok f.links.now) (λ p. closing (moment self.counts rows.now links.now) ≡ Err p.1) }
        ensures back { IfErr result (λ p. (p.0.action ≡ self.action) × (p.0.counts ≡ self.counts)) }
    {
        let Counts { held, filled, .. } = self.counts;
        if !self.counts.as_lent(rows.len(), links.len()) {
            return Err((self, Refusal::Memory));
        }
        if filled < 2 * held {
            return Err((self, Refusal::Unfilled));
        }
        let held_links = &links[0..held];
        if !Links::of(held_links).is_sound() {
            return Err((self, Refusal::Unsound));
        }
        Ok(Finished::of(held_links))
    }
}
