// Which levels and which lists of squares are accepted.
use crate::squares;
use crate::tally::{Answer, Tally};
use levels::lines::Lines;
use levels::matrices::Matrices;
use levels::vectors::Vectors;
use origami::origami::Origami;
use std::fmt;

// What the makers of the three kinds say to a level.
fn level(tally: &mut Tally, level: u32, expected: Answer) -> anyhow::Result<()> {
    let lines = Answer::accepted(Lines::new(level));
    tally.compare(format_args!("lines of level {level}"), lines, expected)?;
    let vectors = Answer::accepted(Vectors::new(level));
    tally.compare(format_args!("vectors of level {level}"), vectors, expected)?;
    let matrices = Answer::accepted(Matrices::new(level));
    tally.compare(
        format_args!("matrices of level {level}"),
        matrices,
        expected,
    )
}

fn origami<C: fmt::Display + Drop>(
    tally: &mut Tally,
    case: C,
    right: &[u32],
    up: &[u32],
    expected: Answer,
) -> anyhow::Result<()> {
    tally.compare(case, Answer::accepted(Origami::new(right, up)), expected)
}

// A ring of squares, each glued to itself above.
fn ring(tally: &mut Tally, degree: u32, expected: Answer) -> anyhow::Result<()> {
    let right = squares::ring(tally.rt.alloc(), degree)?;
    let up = squares::identity(tally.rt.alloc(), degree)?;
    origami(
        tally,
        format_args!("a ring of {degree} squares"),
        &right,
        &up,
        expected,
    )
}

pub fn run(tally: &mut Tally) -> anyhow::Result<()> {
    level(tally, 200, Answer::Accepted)?;
    level(tally, 201, Answer::Declined(3))?;
    ring(tally, 16, Answer::Accepted)?;
    ring(tally, 17, Answer::Declined(3))?;
    let case = "an origami with right 1,1";
    origami(tally, case, &[1, 1], &[1, 2], Answer::Declined(4))?;
    let case = "an origami with right 1,2 and up 1,2";
    origami(tally, case, &[1, 2], &[1, 2], Answer::Declined(5))
}
