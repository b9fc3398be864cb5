// How many fills a table accepts, and what it says before all of them are made.
use crate::memory::Memory;
use crate::squares;
use crate::tally::{Answer, Tally};
use levels::lines::Lines;
use modular::action::Action;

// The rows of the four squares.
const ROOM: usize = 9;

// What is expected of a table with so many rows and links.
#[derive(Clone, Copy)]
struct Outcome {
    rows: usize,
    fills: usize,
    next: Answer,
    close: Answer,
}

// Fills a table until it declines, and closes it.
fn fill<A: Action + Drop>(
    tally: &mut Tally,
    name: &str,
    action: A,
    expected: Outcome,
) -> anyhow::Result<()> {
    let size = expected.rows;
    let mut memory = Memory::new(tally.rt.alloc(), &action, size, size)?;
    let mut table = memory.open(action)?;
    let fills = Answer::from(memory.fill(&mut table));
    let next = Answer::accepted(table.fill(&mut memory.rows, &mut memory.links));
    let closed = table.close(&memory.rows, &memory.links);
    let close = Answer::accepted(closed.map_err(|(_, refusal)| refusal));
    tally.compare(
        format_args!("accepted fills of {name} with room {size}"),
        fills,
        Answer::Number(expected.fills),
    )?;
    tally.compare(
        format_args!("the next fill of {name} with room {size}"),
        next,
        expected.next,
    )?;
    tally.compare(
        format_args!("close of {name} with room {size}"),
        close,
        expected.close,
    )
}

// Opens the table of an action, makes so many fills, and follows a word.
fn follow<A: Action + Drop>(
    tally: &mut Tally,
    case: &str,
    action: A,
    fills: usize,
    word: &str,
    expected: Answer,
) -> anyhow::Result<()> {
    let mut memory = Memory::new(tally.rt.alloc(), &action, ROOM, ROOM)?;
    let mut table = memory.open(action)?;
    for _ in 0..fills {
        let _ = table.fill(&mut memory.rows, &mut memory.links);
    }
    let got = Answer::told(table.follow(&memory.rows, &memory.links, word));
    tally.compare(case, got, expected)
}

// Opens the table of an action, makes one fill, and closes it.
fn close<A: Action + Drop>(
    tally: &mut Tally,
    case: &str,
    action: A,
    expected: Answer,
) -> anyhow::Result<()> {
    let mut memory = Memory::new(tally.rt.alloc(), &action, ROOM, ROOM)?;
    let mut table = memory.open(action)?;
    let _ = table.fill(&mut memory.rows, &mut memory.links);
    let closed = table.close(&memory.rows, &memory.links);
    let got = Answer::accepted(closed.map_err(|(_, refusal)| refusal));
    tally.compare(case, got, expected)
}

// The four squares before all fills are made.
fn early(tally: &mut Tally) -> anyhow::Result<()> {
    let four = squares::four()?;
    let case = "the four squares, follow of T before the first fill";
    follow(tally, case, four, 0, "T", Answer::DeclinedAt(13, 0))?;
    let case = "the four squares, follow of T after one fill";
    follow(tally, case, four, 1, "T", Answer::Number(1))?;
    let case = "the four squares, follow of TT after one fill";
    follow(tally, case, four, 1, "TT", Answer::DeclinedAt(13, 1))?;
    let case = "the four squares, follow of TxT after one fill";
    follow(tally, case, four, 1, "TxT", Answer::DeclinedAt(12, 1))?;
    let case = "the four squares, follow of 1001 letters after one fill";
    let long = "T".repeat(tally.rt.alloc(), 1001)?;
    follow(tally, case, four, 1, &long, Answer::Declined(14))?;
    let case = "the four squares, close after one fill";
    close(tally, case, four, Answer::Declined(10))
}

// Tables that are filled as far as they can be.
fn full(tally: &mut Tally) -> anyhow::Result<()> {
    let four = squares::four()?;
    let one = Outcome {
        rows: 1,
        fills: 2,
        next: Answer::Declined(9),
        close: Answer::Accepted,
    };
    let eight = Outcome {
        rows: 8,
        fills: 12,
        next: Answer::Declined(8),
        close: Answer::Declined(10),
    };
    let nine = Outcome {
        rows: 9,
        fills: 18,
        next: Answer::Declined(9),
        close: Answer::Accepted,
    };
    fill(tally, "lines 1", Lines::new(1)?, one)?;
    fill(tally, "the four squares", four, eight)?;
    fill(tally, "the four squares", four, nine)
}

pub fn run(tally: &mut Tally) -> anyhow::Result<()> {
    full(tally)?;
    early(tally)
}
