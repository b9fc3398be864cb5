// Lists of numbers, as a line of a job spells them.
ghost use Rattle.jobs.specs.Lists.{ReadsList};

use crate::fault::LineError;
use crate::number;
use std::alloc::Global;

// The numbers between the commas.
pub fn numbers(heap: Global, body: &[u8]) -> Result<Vec<u32>, LineError>
    ensures { ReadsList body.now result }
{
    let mut list = Vec::new(heap);
    for field in body.split(|byte| *byte == b',') {
        list.push(number::natural(field)?)?;
    }
    Ok(list)
}
