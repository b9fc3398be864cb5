// Levels, and why a number is none.
ghost use Rattle.std.specs.Prelude.{◌≡◌, pos, ◌+ℤ◌, ◌*ℤ◌, neg_ℤ, MatchResult, ◌==◌};
ghost use Rattle.levels.specs.Levels.{IsLevel, Declined, number};
ghost use Rattle.numbers.specs.Gcd.{gcd};
ghost use Rattle.numbers.specs.Residues.{residue};

use thiserror::Error;

// Why a level action is not made.
#[derive(Clone, Copy, Debug, PartialEq, Eq, Error)]
pub enum Refusal {
    #[error("the level is not 1 to 200")]
    OutOfRange,
}

impl Refusal {
    // The number under which the refusal is known outside, which the rules of the project fix.
    pub fn number(self) -> u8
        ensures { result ≡ number self }
    {
        match self {
            Refusal::OutOfRange => 3,
        }
    }
}

// A number n from 1 to 200, and the arithmetic modulo n.
#[derive(Clone, Copy)]
pub(crate) struct Level {
    n: u8,
    ghost ok: { IsLevel n },
}

impl Level {
    const MAX: u32 = 200;

    // A number from 1 to 200 is a level, and no other is.
    pub(crate) fn new(level: u32) -> Result<Level, Refusal>
        ensures { MatchResult result (λ l. l.n ≡ level) (Declined level) }
    {
        if (1..=Self::MAX).contains(&level) {
            Ok(Level { n: level as u8 })
        } else {
            Err(Refusal::OutOfRange)
        }
    }

    // The number n itself.
    pub(crate) fn value(self) -> u8
        ensures { result ≡ self.n }
    {
        self.n
    }

    // Whether u and n have no common divisor but 1.
    pub(crate) fn coprime(self, u: u8) -> bool
        ensures { result ≡ (gcd u self.n == 1) }
    {
        gcd(u, self.n) == 1
    }

    // The residue of x modulo n.
    pub(crate) fn residue(self, x: u8) -> u8
        ensures { result ≡ residue self.n (pos x) }
    {
        x % self.n
    }

    // The residue of x + y.
    pub(crate) fn sum(self, x: u8, y: u8) -> u8
        ensures { result ≡ residue self.n (pos x +ℤ pos y) }
    {
        self.reduced(u16::from(x) + u16::from(y))
    }

    // The residue of −x.
    pub(crate) fn negative(self, x: u8) -> u8
        ensures { result ≡ residue self.n (neg_ℤ (pos x)) }
    {
        (self.n - x % self.n) % self.n
    }

    // The residue of x · y.
    pub(crate) fn product(self, x: u8, y: u8) -> u8
        ensures { result ≡ residue self.n (pos x *ℤ pos y) }
    {
        self.reduced(u16::from(x) * u16::from(y))
    }

    // The residue of a sum or a product of two entries.
    fn reduced(self, x: u16) -> u8
        ensures { result ≡ residue self.n (pos x) }
    {
        (x % u16::from(self.n)) as u8
    }
}

// The greatest common divisor, by Euclid's algorithm.
fn gcd(mut a: u8, mut b: u8) -> u8
    ensures { result ≡ gcd a b }
{
    while b != 0 {
        (a, b) = (b, a % b);
    }
    a
}
