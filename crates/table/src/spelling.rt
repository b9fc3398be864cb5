// The word of a row, from its parents.
ghost use Rattle.std.specs.Prelude.{◌≡◌, ◌≤◌, length};
ghost use Rattle.table.specs.Acting.{word_of};
ghost use Rattle.table.specs.Questions.{characters, spelling};

use crate::links::Links;
use crate::refusal::Refusal;

impl<'a> Links<'a> {
    // How many letters the word of a row has. A parent is a lower row, so there are no more than the row's number says.
    pub fn word_length(self, row: u16) -> usize
        ensures value { result ≡ length (word_of self.entry.links.now row) }
        ensures most { result ≤ row }
    {
        let mut q = row;
        for n in 0..usize::from(row) {
            if q == 0 {
                return n;
            }
            q = self.at(q).parent;
        }
        usize::from(row)
    }

    // Writes the word of a row into an output of just its length, the last letter first. It goes by places: under
    // `iter_mut().rev()`, which was tried, the proof did not close, as nothing told what is written so far.
    pub fn write_word(self, row: u16, out: &mut [u8])
        requires { length out.old ≡ length (word_of self.links.now row) }
        ensures { out.new ≡ characters (word_of self.entry.links.now row) }
    {
        let mut q = row;
        for k in (0..out.len()).rev() {
            let reached = self.at(q);
            out[k] = u8::from(reached.letter);
            q = reached.parent;
        }
    }

    // Writes the word of a row to the start of an output, and answers how long it is.
    pub fn spell(self, row: u16, out: &mut [u8]) -> Result<usize, Refusal>
        ensures answer { result ≡ (spelling self.entry.links.now row out.old).answer }
        ensures out { out.new ≡ (spelling self.entry.links.now row out.old).out }
    {
        if row >= self.rows() {
            return Err(Refusal::NoSuch);
        }
        let count = self.word_length(row);
        if count > out.len() {
            return Err(Refusal::Length);
        }
        self.write_word(row, &mut out[..count]);
        Ok(count)
    }
}
