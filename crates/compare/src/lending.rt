// Which rows and links a table can be opened over, and with which it can be called then.
use crate::memory::Memory;
use crate::tally::{Answer, Tally};
use levels::lines::Lines;
use modular::action::Action;
use table::growing::Growing;

// The rows and links of a table that is called with others.
const OPENED: usize = 5;

fn open<A: Action + Drop>(
    tally: &mut Tally,
    action: A,
    rows: usize,
    links: usize,
    expected: Answer,
) -> anyhow::Result<()> {
    let mut lent = Memory::new(tally.rt.alloc(), &action, rows, links)?;
    let opened = Growing::open(action, &mut lent.rows, &mut lent.links);
    tally.compare(
        format_args!("open with {rows} rows and {links} links"),
        Answer::accepted(opened.map_err(|(_, refusal)| refusal)),
        expected,
    )
}

// A table is opened, and then each call is handed so many other rows and links.
fn call<A: Action + Drop>(
    tally: &mut Tally,
    action: A,
    rows: usize,
    links: usize,
) -> anyhow::Result<()> {
    let heap = tally.rt.alloc();
    let mut lent = Memory::new(heap, &action, OPENED, OPENED)?;
    let mut other = Memory::new(heap, &action, rows, links)?;
    let mut table = lent.open(action)?;
    let fill = Answer::accepted(table.fill(&mut other.rows, &mut other.links));
    lent.fill(&mut table);
    let follow = Answer::told(table.follow(&other.rows, &other.links, "T"));
    let closed = table.close(&other.rows, &other.links);
    let close = Answer::accepted(closed.map_err(|(_, refusal)| refusal));
    for (call, got) in [("fill", fill), ("follow", follow), ("close", close)] {
        tally.compare(
            format_args!("{call} with {rows} rows and {links} links, where open had {OPENED}"),
            got,
            Answer::Declined(7),
        )?;
    }
    Ok(())
}

pub fn run(tally: &mut Tally) -> anyhow::Result<()> {
    let lines = Lines::new(2)?;
    open(tally, lines, 65_000, 65_000, Answer::Accepted)?;
    open(tally, lines, 65_001, 65_001, Answer::Declined(7))?;
    open(tally, lines, 0, 0, Answer::Declined(7))?;
    open(tally, lines, 5, 4, Answer::Declined(7))?;
    call(tally, lines, 4, 5)?;
    call(tally, lines, 6, 5)?;
    call(tally, lines, 5, 4)?;
    call(tally, lines, 5, 6)
}
