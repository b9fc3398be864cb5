// Tables above finished tables.
use crate::memory::Memory;
use crate::tally::Tally;
use crate::{counts, squares};
use levels::lines::Lines;
use modular::action::Action;
use modular::mirror::Mirror;
use modular::pair::Pair;

// Room for the largest table here, with some to spare.
const ROOM: usize = 20;

// The rows of a table that is grown above the finished table of an action.
fn above<A: Action + Drop>(
    tally: &mut Tally,
    name: &str,
    action: A,
    expected: usize,
) -> anyhow::Result<()> {
    let mut memory = Memory::new(tally.rt.alloc(), &action, ROOM, ROOM)?;
    counts::rows(tally, name, memory.finished(action)?, expected)
}

// The rows of the table of an action beside the mirror of a finished table.
fn beside<A: Action + Drop, B: Action + Drop>(
    tally: &mut Tally,
    name: &str,
    action: A,
    below: B,
    expected: usize,
) -> anyhow::Result<()> {
    let mut memory = Memory::new(tally.rt.alloc(), &below, ROOM, ROOM)?;
    let pile = Pair::new(action, Mirror::new(memory.finished(below)?));
    counts::rows(tally, name, pile, expected)
}

pub fn run(tally: &mut Tally) -> anyhow::Result<()> {
    let name = "the table above the table of lines 6";
    above(tally, name, Lines::new(6)?, 12)?;
    let name = "the table above the table of the four squares";
    above(tally, name, squares::four()?, 9)?;
    let name = "lines 2 beside the mirrored table of lines 3";
    beside(tally, name, Lines::new(2)?, Lines::new(3)?, 12)
}
