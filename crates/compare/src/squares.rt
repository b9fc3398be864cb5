// Lists of squares, which count from 1.
use origami::origami::Origami;
use std::alloc::{AllocError, Global};

// An origami of four squares, whose table has nine rows.
pub fn four() -> anyhow::Result<Origami> {
    Ok(Origami::new(&[2, 3, 1, 4], &[4, 2, 3, 1])?)
}

// The two lists of an origami.
#[derive(Drop)]
pub struct Squares {
    pub right: Vec<u32>,
    pub up: Vec<u32>,
}

// Appends the squares after one of them, so many in turn.
fn push_after(list: &mut Vec<u32>, square: u32, count: u32) -> Result<(), AllocError> {
    let first = square.saturating_add(1);
    for next in first..first.saturating_add(count) {
        list.push(next)?;
    }
    Ok(())
}

// Each square to itself.
pub fn identity(heap: Global, degree: u32) -> Result<Vec<u32>, AllocError> {
    (1..=degree).collect(heap)
}

// Each square to the next, and the last to the first.
pub fn ring(heap: Global, degree: u32) -> Result<Vec<u32>, AllocError> {
    let mut list = Vec::new(heap);
    push_after(&mut list, 1, degree.saturating_sub(1))?;
    list.push(1)?;
    Ok(list)
}

// A row of squares and a column that share the first square. The squares of the row are numbered first.
pub fn ell(heap: Global, row: u32, column: u32) -> Result<Squares, AllocError> {
    let further = column.saturating_sub(1);
    let mut right = ring(heap, row)?;
    push_after(&mut right, row, further)?;
    let mut up = Vec::new(heap);
    push_after(&mut up, row, 1)?;
    push_after(&mut up, 1, row.saturating_sub(1))?;
    push_after(&mut up, row.saturating_add(1), further.saturating_sub(1))?;
    up.push(1)?;
    Ok(Squares { right, up })
}

// A ring of pairs of squares; going up, the two squares of a pair change places.
pub fn cross(heap: Global, pairs: u32) -> Result<Squares, AllocError> {
    let degree = pairs.saturating_mul(2);
    let mut up = Vec::new(heap);
    for first in (1..degree).step_by(2) {
        up.push(first.saturating_add(1))?;
        up.push(first)?;
    }
    let right = ring(heap, degree)?;
    Ok(Squares { right, up })
}
