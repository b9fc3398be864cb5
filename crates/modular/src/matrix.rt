// Two-by-two integer matrices by value, as arrays of rows.
ghost use Rattle.std.specs.Prelude.{◌≡◌, ◌+ℤ◌, ◌*ℤ◌, IfSome, FitsSigned};
ghost use Rattle.std.specs.Int.{w64};
ghost use Rattle.modular.specs.Matrix.{det, entries, rows, inverted, Fits, Invertible, Undoes, ◌·◌};
ghost use Rattle.std.specs.Option.{SomeIff};

// The matrix with first row a b and second row c d.
pub type Matrix = [[i64; 2]; 2];

pub const IDENTITY: Matrix = [[1, 0], [0, 1]];

// The whole product of two numbers.
fn wide(a: i64, b: i64) -> i128
    ensures { result ≡ a *ℤ b }
{
    a as i128 * b as i128
}

// ad - bc, which always fits twice the width.
pub fn determinant(m: Matrix) -> i128
    ensures { result ≡ det (entries m) }
{
    let [[a, b], [c, d]] = m;
    wide(a, d) - wide(b, c)
}

// A row times a column, unless that does not fit.
fn dot(a: i64, b: i64, e: i64, g: i64) -> Option<i64>
    ensures { SomeIff result (FitsSigned w64 (a *ℤ e +ℤ b *ℤ g)) (a *ℤ e +ℤ b *ℤ g) }
{
    let sum = wide(a, e).checked_add(wide(b, g))?;
    i64::try_from(sum).ok()
}

// The product, unless an entry does not fit.
pub fn product(x: Matrix, y: Matrix) -> Option<Matrix>
    ensures { SomeIff result (Fits (entries x · entries y)) (rows (entries x · entries y)) }
{
    let [[a, b], [c, d]] = x;
    let [[e, f], [g, h]] = y;
    let first = [dot(a, b, e, g)?, dot(a, b, f, h)?];
    let second = [dot(c, d, e, g)?, dot(c, d, f, h)?];
    Some([first, second])
}

// The inverse, unless the determinant is not 1 or an entry does not fit.
pub fn inverse(x: Matrix) -> Option<Matrix>
    ensures value { SomeIff result (Invertible (entries x)) (rows (inverted (entries x))) }
    ensures undoes { IfSome result (λ m. Undoes (entries x) (entries m)) }
{
    if determinant(x) != 1 {
        return None;
    }
    let [[a, b], [c, d]] = x;
    Some([[d, b.checked_neg()?], [c.checked_neg()?, a]])
}
