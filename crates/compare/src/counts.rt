// How many rows tables have.
use crate::memory::Memory;
use crate::tally::{Answer, Tally};
use levels::lines::Lines;
use levels::matrices::Matrices;
use levels::vectors::Vectors;
use modular::action::Action;
use modular::pair::Pair;

// Room for the largest table here, with some to spare.
const ROOM: usize = 400;

// Compares the rows of the table of an action.
pub fn rows<A: Action + Drop>(
    tally: &mut Tally,
    name: &str,
    action: A,
    expected: usize,
) -> anyhow::Result<()> {
    let mut memory = Memory::new(tally.rt.alloc(), &action, ROOM, ROOM)?;
    let rows = memory.finished(action)?.rows();
    tally.compare(
        format_args!("rows of {name}"),
        Answer::from(rows),
        Answer::Number(expected),
    )
}

pub fn run(tally: &mut Tally) -> anyhow::Result<()> {
    rows(tally, "lines 1", Lines::new(1)?, 1)?;
    rows(tally, "lines 6", Lines::new(6)?, 12)?;
    rows(tally, "vectors 3", Vectors::new(3)?, 8)?;
    rows(tally, "matrices 3", Matrices::new(3)?, 24)?;
    let both = Pair::new(Lines::new(2)?, Lines::new(3)?);
    rows(tally, "the pair of lines 2 and lines 3", both, 12)?;
    rows(tally, "lines 200", Lines::new(200)?, 360)?;
    rows(tally, "vectors 12", Vectors::new(12)?, 96)?;
    rows(tally, "matrices 4", Matrices::new(4)?, 48)
}
