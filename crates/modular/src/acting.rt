// Where words lead in an action, and which matrices are members.
ghost use Rattle.std.specs.Prelude.{◌≡◌, T, ◌↔◌, [], ◌∷◌};
ghost use Rattle.modular.specs.Acting.{MemberOf, ThroughMatrix, AnyWordTells, EveryMatrixHasWord, HasIdentity, HasProducts, HasInverses};
ghost use Rattle.modular.specs.Actions.{lead};
ghost use Rattle.modular.specs.Words.{matrix};

use crate::action::Action;
use crate::letter::Letter;

// The step of one letter.
pub fn step<A: Action>(action: &A, from: A::Record, letter: Letter) -> A::Record
    ensures { result ≡ lead (A.step_t action.now) (A.step_s action.now) (letter ∷ []) from }
{
    match letter {
        Letter::T => action.t(from),
        Letter::S => action.s(from),
    }
}

// The record to which a word leads, left letter first.
pub fn lead_from<A: Action>(action: &A, from: A::Record, word: &[Letter]) -> A::Record
    ensures value { result ≡ lead (A.step_t action.now) (A.step_s action.now) word.now from }
    ensures through_matrix { ThroughMatrix A.Action action.now }
    ensures has_word { EveryMatrixHasWord }
{
    let mut p = from;
    for letter in word {
        p = step(action, p, *letter);
    }
    p
}

// Whether the matrix of a word is a member.
pub fn is_member<A: Action>(action: &A, word: &[Letter]) -> bool
    ensures exactly { T result ↔ MemberOf A.Action action.now (matrix word.now) }
    ensures identity { HasIdentity (MemberOf A.Action action.now) }
    ensures products { HasProducts (MemberOf A.Action action.now) }
    ensures inverses { HasInverses (MemberOf A.Action action.now) }
    ensures any_word { AnyWordTells A.Action action.now }
{
    let first = action.first();
    action.same(lead_from(action, first, word), first)
}
