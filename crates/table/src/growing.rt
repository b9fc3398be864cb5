// A growing table: an action, and how far the rows and links that are lent to it are filled.
ghost use Rattle.std.specs.Prelude.{◌≡◌, ◌&&◌, nat_le, nat_lt};
ghost use Rattle.table.specs.Growing.{Fit};

use crate::counts::Counts;

mod calls;
mod rows;

// The most rows that a table can have.
pub const MOST: usize = 65_000;

// Whether a table can have so many rows.
pub(crate) fn storable(count: usize) -> bool
    ensures { result ≡ (nat_lt 0 count && nat_le count 65000) }
{
    0 < count && count <= MOST
}

// The rows and links belong to the caller, who lends them to each call; what they hold is no part of this. They are two
// parameters, as the rules of the project have it: the caller's own memory, of any two sizes, and other memory is declined.
#[derive(Drop)]
pub struct Growing<A> {
    action: A,
    counts: Counts,
    ghost fit: { Fit counts },
}
