// The parts of a listing that have a line for each of many things.
ghost use Rattle.std.specs.Prelude.{◌≡◌, ◌+◌, ◌≤◌, ◌++◌, map, length, Ok, string_bytes, MatchResult, OnOk};
ghost use Rattle.listing.specs.Errors.{Tells};
ghost use Rattle.listing.specs.Lines.{each, row_line, generator_line, member_lines};
ghost use Rattle.modular.specs.Matrix.{entries};

use crate::error::Error;
use crate::lines;
use modular::matrix::Matrix;
use std::alloc::AllocError;
use table::finished::Finished;

// A line for each row. The word of a row has no more letters than its number says, so there is room for all words.
pub fn rows(text: &mut String, table: &Finished, out: &mut [u8]) -> Result<(), AllocError>
    requires { length table.now.links.now ≤ length out.old }
    ensures { OnOk result (string_bytes text.new ≡ string_bytes text.old
        ++ each (row_line table.now.links.now) (length table.now.links.now)) }
{
    for row in 0..table.rows() as u16 {
        lines::row_line(text, table, row, out)?;
    }
    Ok(())
}

// A line for each generator. There is one more than there are rows.
pub fn generators(text: &mut String, table: &Finished) -> Result<(), AllocError>
    ensures { OnOk result (string_bytes text.new ≡ string_bytes text.old
        ++ each (generator_line table.now.links.now) (length table.now.links.now + 1)) }
{
    for number in 0..=table.rows() {
        lines::generator_line(text, table, number)?;
    }
    Ok(())
}

// A line for each matrix, unless one is declined.
pub fn members(text: &mut String, table: &Finished, matrices: &[Matrix]) -> Result<(), Error>
    ensures { MatchResult result
        (λ _. member_lines table.now.links.now (string_bytes text.old) (map entries matrices.now) ≡ Ok (string_bytes text.new))
        (λ e. Tells e (member_lines table.now.links.now (string_bytes text.old) (map entries matrices.now))) }
{
    for m in matrices {
        lines::member_line(text, table.place(*m)?)?;
    }
    Ok(())
}
