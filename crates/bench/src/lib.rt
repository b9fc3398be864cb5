// Work for the benchmark of bench/, exported for a Rust program to link. Each call answers a checksum, or 0 where a level, an
// origami or the memory is declined: the C interface has a number alone.
#![tactic(auto)]

use levels::level::Refusal;
use levels::lines::Lines;
use levels::matrices::Matrices;
use levels::vectors::Vectors;
use modular::action::Action;
use std::alloc::Global;
use work::Placements;

mod checksum;
mod random;
mod squares;
mod work;

// Grows the action of a level, if there is one, in memory for `room` rows.
fn grown<A: Action + Drop>(
    heap: Global,
    made: Result<A, Refusal>,
    room: usize,
    placements: Option<Placements>,
) -> u64 {
    made.ok()
        .and_then(|action| work::grow(heap, action, room, placements))
        .unwrap_or(0)
}

// Grows the lines of a level in memory for `room` rows.
#[unsafe(no_mangle)]
pub extern "C" fn bench_lines(heap: Global, level: u32, room: usize) -> u64 {
    grown(heap, Lines::new(level), room, None)
}

// Grows the vectors of a level in memory for `room` rows.
#[unsafe(no_mangle)]
pub extern "C" fn bench_vectors(heap: Global, level: u32, room: usize) -> u64 {
    grown(heap, Vectors::new(level), room, None)
}

// Grows the matrices of a level in memory for `room` rows.
#[unsafe(no_mangle)]
pub extern "C" fn bench_matrices(heap: Global, level: u32, room: usize) -> u64 {
    grown(heap, Matrices::new(level), room, None)
}

// Grows an origami, whose squares count from 1, in memory for `room` rows.
#[unsafe(no_mangle)]
pub extern "C" fn bench_origami(heap: Global, right: &[u8], up: &[u8], room: usize) -> u64 {
    squares::origami(right, up)
        .and_then(|origami| work::grow(heap, origami, room, None))
        .unwrap_or(0)
}

// Grows the lines of a level, and places random matrices on the table.
#[unsafe(no_mangle)]
pub extern "C" fn bench_place(heap: Global, level: u32, room: usize, seed: u64, count: u64) -> u64 {
    grown(
        heap,
        Lines::new(level),
        room,
        Some(Placements { seed, count }),
    )
}

// Takes random steps from an origami, each to a least form.
#[unsafe(no_mangle)]
pub extern "C" fn bench_forms(right: &[u8], up: &[u8], seed: u64, count: u64) -> u64 {
    squares::origami(right, up).map_or(0, |origami| squares::steps(&origami, seed, count))
}
