// Numbering the squares of a gluing from a chosen one.
ghost use Rattle.std.specs.Prelude.{◌≡◌, ℕ, ◌<◌, List, length, ◌==◌};
ghost use Rattle.origami.specs.Forms.{order, reading};
ghost use Rattle.origami.specs.Numberings.{Holds, Room};
ghost use Rattle.origami.specs.Squares.{place, added};

use crate::gluing::{Enclosed, Gluing};

// The squares that have a number, in the order of their numbers, and the number of each.
// Arrays with a count, since no step of an origami takes memory from the heap.
#[derive(Clone, Copy)]
struct Numbering {
    order: [u8; 16],
    number: [Option<u8>; 16],
    count: u8,
}

impl Numbering {
    // The squares of g, numbered from `first`: at each in turn, the right and then the upper neighbour gets the next number.
    fn new(squares: Enclosed, first: u8) -> Numbering
        requires { first < squares.gluing.degree }
        ensures { Holds first (order squares.gluing first) result }
    {
        let g = squares.gluing;
        let mut number = [None; 16];
        number[first as usize] = Some(0);
        let mut n = Numbering {
            order: [first; 16],
            number,
            count: 1,
        };
        // By its index, since the order grows while it is gone through.
        for i in 0..g.degree as usize {
            let square = n.order[i] as usize;
            let (right, up) = (g.right[square], g.up[square]);
            n.add(right);
            n.add(up);
        }
        n
    }

    // Gives a square the next number unless it has one.
    fn add(&mut self, square: u8)
        requires { Room self.old square }
        ensures { (x : ℕ) (xs : List ℕ) → Holds x xs self.old → Holds x (added square xs) self.new }
    {
        if self.number[square as usize].is_none() {
            self.order[self.count as usize] = square;
            self.number[square as usize] = Some(self.count);
            self.count += 1;
        }
    }

    // The number of a square. A square that has none counts as the one behind the last.
    fn of(&self, square: u8) -> u8
        requires { square < 16 }
        ensures { (x : ℕ) (xs : List ℕ) → Holds x xs self.now → result ≡ place square xs }
    {
        self.number[square as usize].unwrap_or(self.count)
    }
}

impl Enclosed {
    // Whether each square gets a number from square 0.
    pub(crate) fn is_whole(self) -> bool
        ensures { result ≡ (length (order self.gluing 0) == self.gluing.degree) }
    {
        Numbering::new(self, 0).count == self.gluing.degree
    }

    // The gluing in the numbers that its squares get from `first`.
    pub(crate) fn reading(self, first: u8) -> Gluing
        requires { first < self.gluing.degree }
        ensures { result ≡ reading self.gluing first }
    {
        let g = self.gluing;
        let n = Numbering::new(self, first);
        let mut right = [0; 16];
        let mut up = [0; 16];
        for (i, square) in n.order[..g.degree as usize].iter().enumerate() {
            right[i] = n.of(g.right[*square as usize]);
            up[i] = n.of(g.up[*square as usize]);
        }
        Gluing { right, up, ..g }
    }
}
