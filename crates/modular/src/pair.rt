// Two actions side by side, each stepped by every letter.
ghost use Rattle.std.specs.Prelude.{◌≡◌};
ghost use Rattle.modular.specs.Acting.{MemberOf, MembersExactly};
ghost use Rattle.modular.specs.Pair.{pair_of};

use crate::action::Action;

// A record of each.
#[derive(Clone, Copy)]
pub struct Both<P, Q> {
    pub first: P,
    pub second: Q,
}

#[derive(Drop)]
pub struct Pair<A, B> {
    first: A,
    second: B,
}

impl<A: Action, B: Action> Pair<A, B> {
    pub fn new(first: A, second: B) -> Pair<A, B>
        ensures holds { (result.first ≡ first) × (result.second ≡ second) }
        ensures members { MembersExactly (pair_of A.Action B.Action) result (λ m. MemberOf A.Action first m × MemberOf B.Action second m) }
    {
        Pair { first, second }
    }
}

impl<A: Action, B: Action> Action for Pair<A, B> {
    type Record = Both<A::Record, B::Record>;

    ghost point = { (pair_of A.Action B.Action).point };

    ghost start = { (pair_of A.Action B.Action).start };

    ghost step_t = { (pair_of A.Action B.Action).step_t };

    ghost step_s = { (pair_of A.Action B.Action).step_s };

    ghost agrees = { (pair_of A.Action B.Action).agrees };

    ghost laws = { (pair_of A.Action B.Action).laws };

    fn first(&self) -> Both<A::Record, B::Record> {
        Both {
            first: self.first.first(),
            second: self.second.first(),
        }
    }

    fn t(&self, p: Both<A::Record, B::Record>) -> Both<A::Record, B::Record> {
        Both {
            first: self.first.t(p.first),
            second: self.second.t(p.second),
        }
    }

    fn s(&self, p: Both<A::Record, B::Record>) -> Both<A::Record, B::Record> {
        Both {
            first: self.first.s(p.first),
            second: self.second.s(p.second),
        }
    }

    fn same(&self, p: Both<A::Record, B::Record>, q: Both<A::Record, B::Record>) -> bool {
        self.first.same(p.first, q.first) && self.second.same(p.second, q.second)
    }
}
