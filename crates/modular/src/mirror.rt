// An action seen in a mirror: the inverse of each letter is stepped.
ghost use Rattle.std.specs.Prelude.{◌≡◌};
ghost use Rattle.modular.specs.Acting.{MemberOf, MembersExactly};
ghost use Rattle.modular.specs.Mirror.{mirrored, mirror_of};

use crate::acting::lead_from;
use crate::action::Action;
use crate::letter::Letter;

// A word of the inverse of T, and one of the inverse of S.
const BACK_T: [Letter; 7] = [
    Letter::S,
    Letter::S,
    Letter::S,
    Letter::T,
    Letter::S,
    Letter::T,
    Letter::S,
];

const BACK_S: [Letter; 3] = [Letter::S, Letter::S, Letter::S];

#[derive(Drop)]
pub struct Mirror<A> {
    below: A,
}

impl<A: Action> Mirror<A> {
    pub fn new(below: A) -> Mirror<A>
        ensures holds { result.below ≡ below }
        ensures members { MembersExactly (mirror_of A.Action) result (λ m. MemberOf A.Action below (mirrored m)) }
    {
        Mirror { below }
    }
}

impl<A: Action> Action for Mirror<A> {
    type Record = A::Record;

    ghost point = { (mirror_of A.Action).point };

    ghost start = { (mirror_of A.Action).start };

    ghost step_t = { (mirror_of A.Action).step_t };

    ghost step_s = { (mirror_of A.Action).step_s };

    ghost agrees = { (mirror_of A.Action).agrees };

    ghost laws = { (mirror_of A.Action).laws };

    fn first(&self) -> A::Record {
        self.below.first()
    }

    fn t(&self, p: A::Record) -> A::Record {
        lead_from(&self.below, p, &BACK_T)
    }

    fn s(&self, p: A::Record) -> A::Record {
        lead_from(&self.below, p, &BACK_S)
    }

    fn same(&self, p: A::Record, q: A::Record) -> bool {
        self.below.same(p, q)
    }
}
