// Facts on integers for every crate above, and the division that answers quotient and remainder together.
#![tactic(auto)]

ghost use Rattle.numbers.specs.Division.{Quotient, NoQuotient};
ghost use Rattle.std.specs.Option.{MatchOption};

// The truncating division: quotient and remainder of `a` by `c`, the quotient rounded towards zero.
// None where `c` is 0, and where the quotient does not fit, which is -2^63 by -1.
pub fn divide(a: i64, c: i64) -> Option<(i64, i64)>
    ensures { MatchOption result (NoQuotient a c) (λ p. Quotient a c p.0 p.1) }
{
    Some((a.checked_div(c)?, a.checked_rem(c)?))
}
