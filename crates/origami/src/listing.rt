// Gluings from the two lists that a user writes.
ghost use Rattle.std.specs.Prelude.{◌≡◌, ◌≤◌, length, MatchResult};
ghost use Rattle.origami.specs.Gluings.{padded};
ghost use Rattle.origami.specs.Listings.{Lists, FitRight, DeclinedRight, Accepted, Declined, target, listed};
ghost use Rattle.origami.specs.declared.refusal.Refusal.TheVariants.{NotPermutation};

use crate::gluing::{Enclosed, Gluing};
use crate::refusal::Refusal;

// The squares of a list, counted from 0, if it lists 1 to `degree` once each. Arrays of 16, since no
// call of an origami takes memory from the heap.
fn permutation(list: &[u32], degree: usize) -> Result<[u8; 16], Refusal>
    requires { degree ≤ 16 }
    ensures { MatchResult result (λ a. Lists degree list.now × (a ≡ padded degree (target list.now))) (λ e. (e ≡ NotPermutation) × (Lists degree list.now → ⊥)) }
{
    if list.len() != degree {
        return Err(Refusal::NotPermutation);
    }
    let mut squares = [0; 16];
    let mut seen = [false; 16];
    for (i, n) in list.iter().enumerate() {
        let n = *n as usize;
        if n == 0 || n > degree || seen[n - 1] {
            return Err(Refusal::NotPermutation);
        }
        seen[n - 1] = true;
        squares[i] = (n - 1) as u8;
    }
    Ok(squares)
}

// The squares right of each square, counted from 0, or what is wrong with the list alone.
pub(crate) fn listed_right(right: &[u32]) -> Result<[u8; 16], Refusal>
    ensures { MatchResult result (λ a. FitRight right.now × (a ≡ padded (length right.now) (target right.now))) (DeclinedRight right.now) }
{
    let degree = right.len();
    if degree == 0 || degree > Gluing::MAX_DEGREE as usize {
        return Err(Refusal::Degree);
    }
    permutation(right, degree)
}

// The gluing of two lists, whose squares count from 1.
pub(crate) fn listed(right: &[u32], up: &[u32]) -> Result<Gluing, Refusal>
    ensures { MatchResult result (λ g. Accepted right.now up.now × (g ≡ listed right.now up.now)) (Declined right.now up.now) }
{
    let gluing = Gluing {
        right: listed_right(right)?,
        degree: right.len() as u8,
        up: permutation(up, right.len())?,
    };
    let squares = Enclosed { gluing };
    if !squares.is_whole() {
        return Err(Refusal::NotReached);
    }
    Ok(gluing)
}
