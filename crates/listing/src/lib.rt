// The text of a listing: what is printed of a finished table, and of matrices by it.
#![tactic(auto)]

ghost use Rattle.std.specs.Prelude.{◌≡◌, map, Ok, string_bytes, MatchResult};
ghost use Rattle.listing.specs.Errors.{Tells};
ghost use Rattle.listing.specs.Lines.{listing};
ghost use Rattle.modular.specs.Matrix.{entries};

use error::Error;
use modular::matrix::Matrix;
use std::alloc::Global;
use table::finished::Finished;

pub mod error;
pub mod grown;
mod lines;
mod parts;
#[cfg(test)]
mod tests;

// The lines of a table and of matrices, or the refusal of the first matrix that the table declines to place.
pub fn listing(heap: Global, table: &Finished, matrices: &[Matrix]) -> Result<String, Error>
    ensures { MatchResult result
        (λ s. listing table.now.links.now (map entries matrices.now) ≡ Ok (string_bytes s))
        (λ e. Tells e (listing table.now.links.now (map entries matrices.now))) }
{
    let mut text = String::new(heap);
    let mut word = vec![in heap; 0u8; table.rows()]?;
    lines::shape_lines(&mut text, table.shape())?;
    parts::rows(&mut text, table, &mut word)?;
    parts::generators(&mut text, table)?;
    parts::members(&mut text, table, matrices)?;
    Ok(text)
}
