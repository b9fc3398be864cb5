// Questions to a finished table.
ghost use Rattle.std.specs.Prelude.{◌≡◌, length};
ghost use Rattle.std.specs.Str.{chars};
ghost use Rattle.modular.specs.Matrix.{entries};
ghost use Rattle.table.specs.Growing.{followed};
ghost use Rattle.table.specs.Questions.{generating, in_rows, measuring, placing, spelling};
ghost use Rattle.table.specs.Shapes.{shape};

use crate::finished::Finished;
use crate::limit::Limit;
use crate::refusal::Refusal;
use crate::shape::Shape;
use modular::matrix::Matrix;

impl<'a> Finished<'a> {
    // The number of rows.
    pub fn rows(&self) -> usize
        ensures { result ≡ length self.now.links.now }
    {
        self.links.len()
    }

    // The row to which a word leads from row 0.
    pub fn follow(&self, word: &str) -> Result<u16, Refusal>
        ensures { result ≡ followed self.now.links.now (chars word.now) }
    {
        self.read().walk(self.links.len(), word)
    }

    // The row to which the words of a matrix of determinant 1 lead.
    pub fn place(&self, m: Matrix) -> Result<u16, Refusal>
        ensures { result ≡ placing self.now.links.now (entries m) }
    {
        self.read().place(m)
    }

    // Writes the least word of a row to the start of an output, and answers its length. No later byte is touched.
    pub fn spell(&self, row: u16, out: &mut [u8]) -> Result<usize, Refusal>
        ensures answer { result ≡ (spelling self.now.links.now row out.old).answer }
        ensures out { out.new ≡ (spelling self.now.links.now row out.old).out }
    {
        self.read().spell(row, out)
    }

    // The generator with a number, counted from 0, with no entry on the way or in the result beyond the limit: there is one
    // more than there are rows. A number or a limit that is out of range is declined before any edge is looked at.
    pub fn generator(&self, number: usize, limit: u64) -> Result<Matrix, Refusal>
        ensures { result ≡ in_rows (generating self.now.links.now number limit) }
    {
        if number > self.links.len() {
            return Err(Refusal::NoSuch);
        }
        let limit = Limit::new(limit)?;
        let edge = self.read().other_edge(number).ok_or(Refusal::NoSuch)?;
        limit.edge_matrix(self.read(), edge).ok_or(Refusal::Wide)
    }

    // The length of the T-cycle of a row.
    pub fn width(&self, row: u16) -> Result<usize, Refusal>
        ensures { result ≡ measuring self.now.links.now row }
    {
        if usize::from(row) >= self.links.len() {
            return Err(Refusal::NoSuch);
        }
        Ok(self.read().width(row))
    }

    // Rows, cusps, fixed rows and genus.
    pub fn shape(&self) -> Shape
        ensures { result ≡ shape self.now.links.now }
    {
        Shape::of(self.read())
    }
}
