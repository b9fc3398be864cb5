// The lines of an origami job that glue its squares, by what their bodies list.
ghost use Rattle.std.specs.Prelude.{◌≡◌, MatchResult};
ghost use Rattle.jobs.specs.Squares.{AllIn, ReadsNumbers, ReadsRight, ReadsUp};
ghost use Rattle.jobs.specs.declared.fault.Fault.TheVariants.{Range};

use crate::fault::{Fault, LineError};
use crate::lines::Place;
use crate::{lines, list};
use origami::origami::Origami;
use std::alloc::Global;

fn in_range(list: &[u32]) -> Result<(), Fault>
    ensures { MatchResult result (λ _. AllIn list.now) (λ e. (e ≡ Range) × (AllIn list.now → ⊥)) }
{
    for number in list {
        lines::ranged(Place::Natural, i64::from(*number))?;
    }
    Ok(())
}

// The numbers that a body lists, each in range.
fn numbers(heap: Global, body: &[u8]) -> Result<Vec<u32>, LineError>
    ensures { ReadsNumbers body.now result }
{
    let list = list::numbers(heap, body)?;
    in_range(list.as_slice())?;
    Ok(list)
}

// The right list that a body says, where the maker of origamis has nothing against it.
pub fn right(heap: Global, body: &[u8]) -> Result<Vec<u32>, LineError>
    ensures { ReadsRight body.now result }
{
    let list = numbers(heap, body)?;
    Origami::check_right(list.as_slice())?;
    Ok(list)
}

// The origami of a right list and the up list that a body says.
pub fn glued(heap: Global, right: &[u32], body: &[u8]) -> Result<Origami, LineError>
    ensures { ReadsUp right.now body.now result }
{
    let up = numbers(heap, body)?;
    Ok(Origami::new(right, up.as_slice())?)
}
