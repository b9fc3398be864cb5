// A table above a pile of layers: an action beside the mirror of a finished table.
ghost use Rattle.std.specs.Prelude.{◌≡◌, Ok, Err, MatchResult};
ghost use Rattle.table.specs.Growing.{opened};
ghost use Rattle.table.specs.Piles.{pile, pile_of};
ghost use Rattle.table.specs.Runs.{EveryRunFromOpen};

use crate::finished::Finished;
use crate::growing::Growing;
use crate::link::Link;
use crate::refusal::Refusal;
use modular::action::Action;
use modular::mirror::Mirror;
use modular::pair::{Both, Pair};

// Opens a table of an action beside a finished table that is seen in a mirror. A pile of layers is one more action, so the law
// over all runs holds of it too.
pub fn open_beside<'a, A: Action>(
    action: A,
    table: Finished<'a>,
    rows: &mut [Both<A::Record, u16>],
    links: &mut [Link],
) -> Result<Growing<Pair<A, Mirror<Finished<'a>>>>, (Pair<A, Mirror<Finished<'a>>>, Refusal)>
    ensures answer { MatchResult result (λ g. (opened ((pile_of A.Action).start (pile action table.entry)) rows.old links.old).answer ≡ Ok g.counts) (λ p. (opened ((pile_of A.Action).start (pile action table.entry)) rows.old links.old).answer ≡ Err p.1) }
    ensures layers { MatchResult result (λ g. g.action ≡ pile action table.entry) (λ p. p.0 ≡ pile action table.entry) }
    ensures rows { rows.new ≡ (opened ((pile_of A.Action).start (pile action table.entry)) rows.old links.old).rows }
    ensures links { links.new ≡ (opened ((pile_of A.Action).start (pile action table.entry)) rows.old links.old).links }
    ensures every_run { EveryRunFromOpen ((pile_of A.Action).start (pile action table.entry)) ((pile_of A.Action).step_t (pile action table.entry)) ((pile_of A.Action).step_s (pile action table.entry)) ((pile_of A.Action).agrees (pile action table.entry)) }
{
    Growing::open(Pair::new(action, Mirror::new(table)), rows, links)
}
