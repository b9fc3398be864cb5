// The generators of a finished table.
ghost use Rattle.std.specs.Prelude.{◌≡◌, ◌<◌, ◌≤◌, true, [], ◌∷◌, ◌++◌, length, pos, MatchOption};
ghost use Rattle.modular.specs.Matrix.{det, entries, identity, inverted, rows, ◌·◌};
ghost use Rattle.modular.specs.Words.{matrix, of_letter};
ghost use Rattle.std.specs.Option.{SomeIff};
ghost use Rattle.table.specs.Acting.{word_of};
ghost use Rattle.table.specs.Generators.{generator_at, other_edges, word_matrix};
ghost use Rattle.table.specs.Links.{edge};
ghost use Rattle.table.specs.Questions.{edge_of, letters, narrow, prefixes, within, written};

use crate::edges::Edge;
use crate::limit::Limit;
use crate::links::Links;
use modular::letter::Letter;
use modular::matrix;
use modular::matrix::Matrix;

// The letter that a written character stands for. No TryFrom: the buffer has T and S alone, and any other byte would be S.
fn letter_of(c: u8) -> Letter
    ensures { result ≡ written c }
{
    if c == b'T' { Letter::T } else { Letter::S }
}

// What the entries of matrices allow: each of these is none where an entry on the way, or of the result, is beyond the limit.
impl Limit {
    // The matrix of a word.
    fn word_matrix(self, word: &[u8]) -> Option<Matrix>
        ensures { SomeIff result (prefixes self.most identity (letters word.now) ≡ true) (rows (matrix (letters word.now))) }
    {
        let mut m = matrix::IDENTITY;
        for c in word {
            m = self.product(m, letter_of(*c).matrix())?;
        }
        Some(m)
    }

    // The matrix of a row's word. Its letters are found from the last, and multiplied from the first; the buffer is an array since
    // no call of a table takes memory from the heap.
    fn row_matrix(self, links: Links, row: u16) -> Option<Matrix>
        ensures { SomeIff result (prefixes self.most identity (word_of links.entry.links.now row) ≡ true) (rows (matrix (word_of links.entry.links.now row))) }
    {
        let mut bytes = [0u8; 65_536];
        let word = &mut bytes[..links.word_length(row)];
        links.write_word(row, word);
        self.word_matrix(word)
    }

    // The matrix of the word of an edge's row with the edge's letter.
    fn walked_matrix(self, links: Links, by: Edge) -> Option<Matrix>
        ensures { SomeIff result (prefixes self.most identity (word_of links.entry.links.now by.row ++ by.letter ∷ []) ≡ true) (rows (word_matrix links.entry.links.now by.row · of_letter by.letter)) }
    {
        self.product(self.row_matrix(links, by.row)?, by.letter.matrix())
    }

    // A matrix times the inverse of another.
    fn undone(self, x: Matrix, y: Matrix) -> Option<Matrix>
        requires inside { within self.most (entries y) ≡ true }
        requires one { det (entries y) ≡ pos 1 }
        ensures { SomeIff result (within self.most (entries x · inverted (entries y)) ≡ true) (rows (entries x · inverted (entries y))) }
    {
        self.product(x, matrix::inverse(y)?)
    }

    // The matrix of an edge: that of its row's word, times its letter, times the inverse of that of its target's word.
    pub fn edge_matrix(self, links: Links, by: Edge) -> Option<Matrix>
        ensures { SomeIff result (narrow links.entry.links.now self.most (edge by.row by.letter) ≡ true) (rows (generator_at links.entry.links.now (edge by.row by.letter))) }
    {
        let walked = self.walked_matrix(links, by)?;
        let target = self.row_matrix(links, by.aim(links))?;
        self.undone(walked, target)
    }
}

impl<'a> Links<'a> {
    // The edge of the generator with a number: edges that are no tree edges count, in their order.
    pub fn other_edge(self, number: usize) -> Option<Edge>
        ensures { MatchOption result (length (other_edges self.entry.links.now) ≤ number)
            (λ e. (number < length (other_edges self.entry.links.now)) × (edge e.row e.letter ≡ edge_of self.entry.links.now number)) }
    {
        let n = (0..2 * usize::from(self.rows()))
            .filter(|n| !Edge::numbered(*n).is_tree(self))
            .nth(number)?;
        Some(Edge::numbered(n))
    }
}
