// Origamis from bytes, and steps from one least form to the next.
use crate::checksum::Checksum;
use crate::random::Random;
use modular::acting;
use modular::action::Action;
use modular::letter::Letter;
use origami::origami::Origami;

// The most squares of an origami.
const SQUARES: usize = 16;

// The numbers of a list of at most 16 bytes. An array with the list's length beside it, since a call that makes no table takes
// no memory from the heap.
fn widened(list: &[u8]) -> [u32; SQUARES] {
    let mut numbers = [0; SQUARES];
    for (number, byte) in numbers.iter_mut().zip(list) {
        *number = u32::from(*byte);
    }
    numbers
}

// The origami of two lists, whose squares count from 1.
pub fn origami(right: &[u8], up: &[u8]) -> Option<Origami> {
    let rights = widened(right);
    let ups = widened(up);
    Origami::new(rights.get(..right.len())?, ups.get(..up.len())?).ok()
}

// Takes random steps from the least form, adds one entry of each form on the way, and all of the last.
pub fn steps(origami: &Origami, seed: u64, count: u64) -> u64 {
    let mut random = Random::new(seed);
    let mut sum = Checksum::new();
    let mut g = origami.first();
    for _ in 0..count {
        let number = random.number();
        let letter = if number % 2 == 0 {
            Letter::T
        } else {
            Letter::S
        };
        g = acting::step(origami, g, letter);
        let at = (number >> 1) as usize % SQUARES;
        sum.add(u64::from(g.right[at]));
        sum.add(u64::from(g.up[at]));
    }
    for square in g.right.iter().chain(&g.up) {
        sum.add(u64::from(*square));
    }
    sum.value()
}
