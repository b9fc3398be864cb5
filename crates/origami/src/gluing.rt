// Gluings of squares, and the two steps on them.
ghost use Rattle.std.specs.Prelude.{◌≡◌, ◌<◌, ◌&&◌, true, false, nat_lt, MatchOption};
ghost use Rattle.origami.specs.Gluings.{right_of, up_of, Inside, sheared, turned};
ghost use Rattle.origami.specs.Origamis.{inside};

// The right and the upper neighbour of each square. Squares count from 0 here, and behind the degree all entries are 0.
// Arrays of one size with a degree, since a record is a plain value that can be copied. Ordered by the first entry that
// differs: the degree, then those of right, then those of up.
#[derive(Clone, Copy, Debug, PartialEq, Eq, PartialOrd, Ord)]
pub struct Gluing {
    pub degree: u8,
    pub right: [u8; 16],
    pub up: [u8; 16],
}

impl Gluing {
    pub(crate) const MAX_DEGREE: u8 = 16;

    // Whether both neighbours of a square are squares.
    fn has_neighbours(self, square: usize) -> bool
        requires { square < 16 }
        ensures { result ≡ (nat_lt (right_of self square) self.degree && nat_lt (up_of self square) self.degree) }
    {
        self.right[square] < self.degree && self.up[square] < self.degree
    }

    // The same gluing, if there are 1 to 16 squares, and all neighbours are squares. A loop: `all` was tried, and the proof did not
    // close.
    pub(crate) fn enclosed(self) -> Option<Enclosed>
        ensures { MatchOption result (inside self ≡ false) (λ e. (inside self ≡ true) × (e.gluing ≡ self)) }
    {
        if self.degree == 0 || self.degree > Self::MAX_DEGREE {
            return None;
        }
        for square in 0..self.degree as usize {
            if !self.has_neighbours(square) {
                return None;
            }
        }
        Some(Enclosed { gluing: self })
    }
}

// A gluing of 1 to 16 squares that no neighbour leaves.
#[derive(Clone, Copy)]
pub(crate) struct Enclosed {
    pub(crate) gluing: Gluing,
    ghost ok: { Inside gluing },
}

impl Enclosed {
    // The T step: right stays, and up goes first right and then up.
    pub(crate) fn sheared(self) -> Enclosed
        ensures { result.gluing ≡ sheared self.gluing }
    {
        let g = self.gluing;
        let mut up = [0; 16];
        for (i, right) in g.right[..g.degree as usize].iter().enumerate() {
            up[i] = g.up[*right as usize];
        }
        Enclosed {
            gluing: Gluing { up, ..g },
        }
    }

    // The S step: up becomes right, and right backwards becomes up.
    pub(crate) fn turned(self) -> Enclosed
        ensures { result.gluing ≡ turned self.gluing }
    {
        let g = self.gluing;
        let mut up = [0; 16];
        for (square, right) in g.right[..g.degree as usize].iter().enumerate() {
            up[*right as usize] = square as u8;
        }
        Enclosed {
            gluing: Gluing {
                right: g.up,
                up,
                ..g
            },
        }
    }
}
