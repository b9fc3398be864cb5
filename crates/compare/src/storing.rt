// Tables from stored lists of links.
use crate::memory::Memory;
use crate::tally::{Answer, Tally};
use levels::lines::Lines;
use modular::action::Action;
use modular::letter::Letter;
use modular::mirror::Mirror;
use std::alloc::Global;
use table::finished::Finished;
use table::link::Link;
use table::refusal::Refusal;

// The table of lines 2 has three rows.
const ROOM: usize = 3;

// The links of lines 2, written out. The tests of `listing` have them too: a test and a program share no crate for such values.
const LINES_2: [Link; ROOM] = [
    Link {
        t: 0,
        s: 1,
        parent: 0,
        letter: Letter::T,
    },
    Link {
        t: 2,
        s: 0,
        parent: 0,
        letter: Letter::S,
    },
    Link {
        t: 1,
        s: 2,
        parent: 1,
        letter: Letter::T,
    },
];

// The links of the finished table of an action.
fn links_of<A: Action + Drop>(heap: Global, action: A) -> anyhow::Result<Vec<Link>> {
    let mut memory = Memory::new(heap, &action, ROOM, ROOM)?;
    let finished = memory.finished(action)?;
    Ok(Vec::from_slice(heap, finished.links())?)
}

// Stores a list, and answers whether the table then has these links.
fn stored<E: From<Refusal>>(list: &[Link], links: &[Link]) -> Result<bool, E> {
    Ok(Finished::stored::<E>(list)?.links() == links)
}

// A list of so many links, none of them filled.
fn unfilled(tally: &mut Tally, count: usize, expected: Answer) -> anyhow::Result<()> {
    let list = vec![in tally.rt.alloc(); Link::empty(0, Letter::T); count]?;
    let got = Answer::accepted(stored::<Refusal>(&list, &[]));
    tally.compare(
        format_args!("a stored list of length {count}, unfilled"),
        got,
        expected,
    )
}

// A list in which two T edges lead to one row.
fn not_sound(tally: &mut Tally) -> anyhow::Result<()> {
    let mut list = LINES_2;
    list[2].t = 2;
    let got = Answer::accepted(stored::<Refusal>(&list, &[]));
    let case = "a stored list with two T edges to one row";
    tally.compare(case, got, Answer::Declined(11))
}

fn same(tally: &mut Tally) -> anyhow::Result<()> {
    let heap = tally.rt.alloc();
    let lines = Lines::new(2)?;
    let links = links_of(heap, lines)?;
    let mirrored = links_of(heap, Mirror::new(lines))?;
    let case = "the links of lines 2 and those written out";
    let got = Answer::from(links.as_slice() == LINES_2.as_slice());
    tally.compare(case, got, Answer::Same(true))?;
    let case = "the links of the mirror of lines 2 and those of lines 2";
    let got = Answer::from(mirrored.as_slice() == links.as_slice());
    tally.compare(case, got, Answer::Same(true))?;
    let case = "the table of the stored list and that of lines 2";
    let got = Answer::told(stored::<Refusal>(&LINES_2, &links));
    tally.compare(case, got, Answer::Same(true))
}

pub fn run(tally: &mut Tally) -> anyhow::Result<()> {
    unfilled(tally, 0, Answer::Declined(7))?;
    unfilled(tally, 1, Answer::Declined(11))?;
    unfilled(tally, 65_000, Answer::Declined(11))?;
    unfilled(tally, 65_001, Answer::Declined(7))?;
    not_sound(tally)?;
    same(tally)
}
