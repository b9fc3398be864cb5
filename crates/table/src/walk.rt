// Following a word from row 0.
ghost use Rattle.std.specs.Prelude.{◌≡◌};
ghost use Rattle.std.specs.Str.{chars};
ghost use Rattle.table.specs.Growing.{leads_to, walk, walk_from};

use crate::link::Link;
use crate::links::Links;
use crate::refusal::Refusal;
use modular::letter::Letter;

// The longest word that is followed, in letters.
pub const LONGEST: usize = 1000;

// The row to which the edge of a letter leads, if that is one of the first `count`. A rule of the project: the target of an edge is
// an option, which follow takes apart, here and where it names the place at fault; the letter before it is taken apart alike.
fn leads_to(count: usize, letter: Letter, link: Link) -> Option<u16>
    ensures { result ≡ leads_to count letter link }
{
    match link.target(letter) {
        Some(row) if usize::from(row) < count => Some(row),
        _ => None,
    }
}

impl<'a> Links<'a> {
    // The same along all letters of a word, left letter first.
    fn letters(self, count: usize, word: &str) -> Result<u16, Refusal>
        ensures { result ≡ walk_from count self.entry.links.now (chars word.now) 0 0 }
    {
        let mut row = 0u16;
        for (place, c) in word.chars().enumerate() {
            let Ok(letter) = Letter::try_from(c) else {
                return Err(Refusal::NotALetter(place));
            };
            let Some(next) = leads_to(count, letter, self.at(row)) else {
                return Err(Refusal::EmptyEdge(place));
            };
            row = next;
        }
        Ok(row)
    }

    // The row to which a word leads from row 0, among the first `count` rows.
    pub fn walk(self, count: usize, word: &str) -> Result<u16, Refusal>
        ensures { result ≡ walk count self.entry.links.now (chars word.now) }
    {
        if word.chars().count() > LONGEST {
            return Err(Refusal::Length);
        }
        self.letters(count, word)
    }
}
