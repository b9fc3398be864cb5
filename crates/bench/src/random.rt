// Numbers and matrices that look random, the same for the same seed.
ghost use Rattle.std.specs.Prelude.{◌<◌};

use modular::matrix::Matrix;

#[derive(Drop)]
pub struct Random {
    state: u64,
}

impl Random {
    pub fn new(seed: u64) -> Random {
        Random { state: seed }
    }

    // The next number: the state counts on by a constant, and its bits are mixed.
    pub fn number(&mut self) -> u64 {
        self.state = self.state.wrapping_add(0x9e37_79b9_7f4a_7c15);
        let x = (self.state ^ (self.state >> 30)).wrapping_mul(0xbf58_476d_1ce4_e5b9);
        let y = (x ^ (x >> 27)).wrapping_mul(0x94d0_49bb_1331_11eb);
        y ^ (y >> 31)
    }

    // A number from 500,000,001 to 1,000,000,000.
    fn large(&mut self) -> u32
        ensures { 0 < result }
    {
        (self.number() % 500_000_000) as u32 + 500_000_001
    }

    // A matrix of determinant 1, with two random numbers in its first column, less their common divisors.
    pub fn matrix(&mut self) -> Matrix {
        let a = self.large();
        let c = self.large();
        completed(a, c)
    }
}

// The matrix that Euclid's algorithm finds to a first column, once that is divided by its greatest common divisor. That the
// determinant is 1 is not proved here: placing tests it.
fn completed(a: u32, c: u32) -> Matrix
    requires { 0 < a }
{
    let (mut r, mut next_r) = (a, c);
    let (mut x, mut next_x) = (1i64, 0i64);
    let (mut y, mut next_y) = (0i64, 1i64);
    while next_r != 0 {
        let q = i64::from(r / next_r);
        (r, next_r) = (next_r, r % next_r);
        (x, next_x) = (next_x, x.wrapping_sub(q.wrapping_mul(next_x)));
        (y, next_y) = (next_y, y.wrapping_sub(q.wrapping_mul(next_y)));
    }
    [[i64::from(a / r), y.wrapping_neg()], [i64::from(c / r), x]]
}
