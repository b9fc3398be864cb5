// A limit on the entries of matrices, either side of 0.
ghost use Rattle.std.specs.Prelude.{◌≡◌, ◌≤◌, ◌<◌, true, false, ◌&&◌, nat_le, nat_lt, pos, slice_index_or, unsigned_abs, MatchResult};
ghost use Rattle.modular.specs.Matrix.{entries, rows, ◌·◌};
ghost use Rattle.std.specs.Option.{SomeIff};
ghost use Rattle.table.specs.Questions.{within};

use crate::refusal::Refusal;
use modular::matrix;
use modular::matrix::Matrix;

// From 1 to 1,000,000,000: so the identity is within it, and no product of two matrices within it leaves 64 bits.
#[derive(Clone, Copy)]
pub struct Limit {
    most: u64,
    ghost some: { 0 < most },
    ghost small: { most ≤ 1000000000 },
}

impl Limit {
    // The largest limit.
    pub const LARGEST: Limit = Limit {
        most: 1_000_000_000,
    };

    // A limit of so much, if that is in range.
    pub fn new(most: u64) -> Result<Limit, Refusal>
        ensures { MatchResult result
            (λ l. (l.most ≡ most) × ((nat_lt 0 most && nat_le most 1000000000) ≡ true))
            (λ e. (e ≡ Refusal.Range) × ((nat_lt 0 most && nat_le most 1000000000) ≡ false)) }
    {
        if 0 < most && most <= Limit::LARGEST.most {
            Ok(Limit { most })
        } else {
            Err(Refusal::Range)
        }
    }

    // Whether no entry of one row is beyond it.
    fn holds_row(self, row: [i64; 2]) -> bool
        ensures { result ≡ (nat_le (unsigned_abs (slice_index_or row 0 (pos 0))) self.most && nat_le (unsigned_abs (slice_index_or row 1 (pos 0))) self.most) }
    {
        let [x, y] = row;
        x.unsigned_abs() <= self.most && y.unsigned_abs() <= self.most
    }

    // Whether no entry of a matrix is beyond it.
    pub fn holds(self, m: Matrix) -> bool
        ensures { result ≡ within self.most (entries m) }
    {
        let [first, second] = m;
        self.holds_row(first) && self.holds_row(second)
    }

    // The product of two matrices, unless an entry of it is beyond the limit.
    pub fn product(self, x: Matrix, y: Matrix) -> Option<Matrix>
        ensures { SomeIff result (within self.most (entries x · entries y) ≡ true) (rows (entries x · entries y)) }
    {
        let product = matrix::product(x, y)?;
        self.holds(product).then_some(product)
    }
}
