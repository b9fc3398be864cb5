// Published tables of origamis. They are of the projective group, whose figures are those of the table wherever -I is a member.
use crate::memory::Memory;
use crate::squares;
use crate::squares::Squares;
use crate::tally::Tally;
use modular::action::Action;
use modular::matrix::Matrix;
use origami::origami::Origami;
use std::fmt;

// Room for the largest table here, with some to spare.
const ROOM: usize = 150;

const MINUS_I: Matrix = [[-1, 0], [0, -1]];

// Twelve times the genus is kept, as the library gives it.
#[derive(Clone, Copy, PartialEq, Eq)]
struct Figures {
    index: usize,
    genus12: i64,
    cusps: usize,
}

impl Figures {
    fn new(index: usize, genus: i32, cusps: usize) -> Figures {
        Figures {
            index,
            genus12: 12 * i64::from(genus),
            cusps,
        }
    }
}

impl fmt::Display for Figures {
    fn fmt<W: fmt::Write>(&self, f: &mut fmt::Formatter<W>) -> fmt::Result {
        let Figures {
            index,
            genus12,
            cusps,
        } = *self;
        write!(f, "index {index}, genus12 {genus12}, cusps {cusps}")
    }
}

// Compares the figures of the table of an action, and says whether -I is a member.
fn compare_figures<C: fmt::Display + Drop, A: Action + Drop>(
    tally: &mut Tally,
    name: C,
    action: A,
    expected: Figures,
) -> anyhow::Result<()> {
    let mut memory = Memory::new(tally.rt.alloc(), &action, ROOM, ROOM)?;
    let finished = memory.finished(action)?;
    let shape = finished.shape();
    let got = Figures {
        index: shape.rows,
        genus12: shape.genus12,
        cusps: shape.cusps,
    };
    let member = match finished.place(MINUS_I) {
        Ok(0) => "is a member",
        _ => "is no member",
    };
    tally.compare(format_args!("{name}, where -I {member}"), got, expected)
}

fn origami<C: fmt::Display + Drop>(
    tally: &mut Tally,
    name: C,
    squares: Squares,
    expected: Figures,
) -> anyhow::Result<()> {
    let action = Origami::new(&squares.right, &squares.up)?;
    compare_figures(tally, name, action, expected)
}

fn ell(tally: &mut Tally, row: u32, column: u32, expected: Figures) -> anyhow::Result<()> {
    let squares = squares::ell(tally.rt.alloc(), row, column)?;
    let name = format_args!("the L-shaped origami {row},{column}");
    origami(tally, name, squares, expected)
}

fn cross(tally: &mut Tally, pairs: u32, expected: Figures) -> anyhow::Result<()> {
    let squares = squares::cross(tally.rt.alloc(), pairs)?;
    let degree = pairs.saturating_mul(2);
    let name = format_args!("the cross origami of {degree} squares");
    origami(tally, name, squares, expected)
}

fn ells(tally: &mut Tally) -> anyhow::Result<()> {
    ell(tally, 2, 2, Figures::new(3, 0, 2))?;
    ell(tally, 2, 3, Figures::new(9, 0, 3))?;
    ell(tally, 2, 4, Figures::new(18, 0, 5))?;
    ell(tally, 2, 5, Figures::new(36, 0, 8))?;
    ell(tally, 2, 6, Figures::new(54, 0, 10))?;
    ell(tally, 2, 7, Figures::new(108, 1, 17))?;
    ell(tally, 3, 3, Figures::new(9, 0, 3))?;
    ell(tally, 4, 4, Figures::new(54, 0, 10))
}

fn crosses(tally: &mut Tally) -> anyhow::Result<()> {
    cross(tally, 1, Figures::new(3, 0, 2))?;
    cross(tally, 2, Figures::new(6, 0, 3))?;
    cross(tally, 3, Figures::new(12, 0, 4))?;
    cross(tally, 4, Figures::new(24, 0, 6))?;
    cross(tally, 5, Figures::new(36, 0, 8))?;
    cross(tally, 6, Figures::new(48, 0, 10))?;
    cross(tally, 7, Figures::new(72, 1, 12))?;
    cross(tally, 8, Figures::new(96, 2, 14))
}

pub fn run(tally: &mut Tally) -> anyhow::Result<()> {
    ells(tally)?;
    crosses(tally)
}
