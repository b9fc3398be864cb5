// Seeking a record among the rows.
ghost use Rattle.std.specs.Prelude.{◌≡◌, ◌<◌, length, MatchOption};
ghost use Rattle.table.specs.Growing.{sought};

use modular::action::Action;

// The lowest of the rows that agrees with a record, if one does.
pub fn sought<A: Action>(action: &A, rows: &[A::Record], p: A::Record) -> Option<usize>
    ensures { MatchOption result (sought (A.agrees action.now) rows.now p ≡ length rows.now) (λ i. (i < length rows.now) × (i ≡ sought (A.agrees action.now) rows.now p)) }
{
    rows.iter().position(|q| action.same(*q, p))
}
