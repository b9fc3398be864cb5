// Questions to the finished table of an origami of four squares.
use crate::memory::Memory;
use crate::squares;
use crate::tally::{Answer, Tally};
use modular::action::Action;
use std::fmt;
use table::finished::Finished;
use table::shape::Shape;

// The table has nine rows.
const ROOM: usize = 9;

// The largest entry and the largest limit.
const LARGEST: i64 = 1_000_000_000;

// A shape, for printing: the type is of another crate, and a listing prints its numbers in other words.
#[derive(Clone, Copy, PartialEq, Eq)]
struct Whole(Shape);

impl fmt::Display for Whole {
    fn fmt<W: fmt::Write>(&self, f: &mut fmt::Formatter<W>) -> fmt::Result {
        let Shape {
            rows,
            cusps,
            e2,
            e3,
            genus12,
        } = self.0;
        write!(
            f,
            "rows {rows}, cusps {cusps}, e2 {e2}, e3 {e3}, genus12 {genus12}"
        )
    }
}

fn places(tally: &mut Tally, table: Finished<'_>) -> anyhow::Result<()> {
    for (m, expected) in [
        ([[-3, 5], [-2, 3]], Answer::Number(0)),
        ([[1, 1], [0, 1]], Answer::Number(1)),
        ([[1, -1], [0, 1]], Answer::Number(3)),
        ([[1, LARGEST], [0, 1]], Answer::Number(1)),
        ([[1, -LARGEST], [0, 1]], Answer::Number(3)),
        ([[1, LARGEST + 1], [0, 1]], Answer::Declined(3)),
        ([[1, -LARGEST - 1], [0, 1]], Answer::Declined(3)),
        ([[1, 1], [1, 1]], Answer::Declined(6)),
    ] {
        let [[a, b], [c, d]] = m;
        tally.compare(
            format_args!("the four squares, place of {a},{b},{c},{d}"),
            Answer::told(table.place(m)),
            expected,
        )?;
    }
    Ok(())
}

fn follows(tally: &mut Tally, table: Finished<'_>) -> anyhow::Result<()> {
    // A word of letters T goes round a cycle of three rows.
    for (letters, expected) in [
        (0, Answer::Number(0)),
        (1000, Answer::Number(1)),
        (1001, Answer::Declined(14)),
    ] {
        let word = "T".repeat(tally.rt.alloc(), letters)?;
        tally.compare(
            format_args!("the four squares, follow of {letters} letters T"),
            Answer::told(table.follow(&word)),
            expected,
        )?;
    }
    for (word, expected) in [
        ("TTST", Answer::Number(8)),
        ("TSxT", Answer::DeclinedAt(12, 2)),
    ] {
        tally.compare(
            format_args!("the four squares, follow of {word}"),
            Answer::told(table.follow(word)),
            expected,
        )?;
    }
    Ok(())
}

fn spells(tally: &mut Tally, table: Finished<'_>) -> anyhow::Result<()> {
    for (row, bytes, expected) in [
        (0, 0, Answer::Number(0)),
        (8, 4, Answer::Number(4)),
        (8, 3, Answer::Declined(14)),
        (9, 4, Answer::Declined(15)),
    ] {
        let mut out = vec![in tally.rt.alloc(); 0u8; bytes]?;
        tally.compare(
            format_args!("the four squares, spell of row {row} into {bytes} bytes"),
            Answer::told(table.spell(row, &mut out)),
            expected,
        )?;
    }
    Ok(())
}

fn generators(tally: &mut Tally, table: Finished<'_>) -> anyhow::Result<()> {
    let largest = LARGEST as u64;
    for (number, limit, expected) in [
        (9, largest, Answer::Accepted),
        (10, largest, Answer::Declined(15)),
        (1, 0, Answer::Declined(3)),
        (1, largest + 1, Answer::Declined(3)),
        (1, 1, Answer::Declined(16)),
        (1, 3, Answer::Accepted),
    ] {
        tally.compare(
            format_args!("the four squares, generator {number} with limit {limit}"),
            Answer::accepted(table.generator(number, limit)),
            expected,
        )?;
    }
    Ok(())
}

fn widths(tally: &mut Tally, table: Finished<'_>) -> anyhow::Result<()> {
    for (row, expected) in [
        (0, Answer::Number(3)),
        (2, Answer::Number(2)),
        (4, Answer::Number(4)),
        (9, Answer::Declined(15)),
    ] {
        tally.compare(
            format_args!("the four squares, width of row {row}"),
            Answer::told(table.width(row)),
            expected,
        )?;
    }
    Ok(())
}

fn shape(tally: &mut Tally, table: Finished<'_>) -> anyhow::Result<()> {
    let expected = Whole(Shape {
        rows: 9,
        cusps: 3,
        e2: 1,
        e3: 0,
        genus12: 0,
    });
    tally.compare("the four squares, shape", Whole(table.shape()), expected)
}

// Finishes the table of an action, and asks it.
fn ask<A: Action + Drop>(tally: &mut Tally, action: A) -> anyhow::Result<()> {
    let mut memory = Memory::new(tally.rt.alloc(), &action, ROOM, ROOM)?;
    let finished = memory.finished(action)?;
    places(tally, finished)?;
    follows(tally, finished)?;
    spells(tally, finished)?;
    generators(tally, finished)?;
    widths(tally, finished)?;
    shape(tally, finished)
}

pub fn run(tally: &mut Tally) -> anyhow::Result<()> {
    ask(tally, squares::four()?)
}
