// How an origami is made and compared: a file of its own, since the promises are about the impl of the action.
ghost use Rattle.std.specs.Prelude.{◌≡◌, T, ◌↔◌, MatchResult};
ghost use Rattle.modular.specs.Acting.{MemberOf};
ghost use Rattle.origami.specs.contracts.origami.OrigamiAction.TheImpl.{ghosts as action};
ghost use Rattle.origami.specs.Forms.{least, IsLeast};
ghost use Rattle.origami.specs.Gluings.{Renumbered};
ghost use Rattle.origami.specs.Listings.{Declined, FitRight, DeclinedRight};
ghost use Rattle.origami.specs.Origamis.{IsPoint, OneForm, Made};

use crate::gluing::Gluing;
use crate::listing::{listed, listed_right};
use crate::origami::Origami;
use crate::refusal::Refusal;
use modular::action::Action;

impl Origami {
    // The origami of two lists, which give for each square what is right of it and what is above it. Squares count from 1 here.
    pub fn new(right: &[u32], up: &[u32]) -> Result<Origami, Refusal>
        ensures { MatchResult result (λ a. Made right.now up.now a.gluing (MemberOf action a)) (Declined right.now up.now) }
    {
        Ok(Origami {
            gluing: listed(right, up)?,
        })
    }

    // Whether the first list alone lets an origami be made: its length is a degree, and it lists each square once.
    pub fn check_right(right: &[u32]) -> Result<(), Refusal>
        ensures { MatchResult result (λ _. FitRight right.now) (DeclinedRight right.now) }
    {
        listed_right(right)?;
        Ok(())
    }

    // The gluing that was given.
    pub fn gluing(&self) -> Gluing
        ensures { result ≡ self.now.gluing }
    {
        self.gluing
    }

    // The smallest of the readings from all squares.
    pub fn least_form(&self) -> Gluing
        ensures value { result ≡ least self.now.gluing }
        ensures is_least { IsLeast self.now.gluing result }
        ensures renumbered { Renumbered self.now.gluing result }
        ensures point { IsPoint result }
    {
        self.enclosed().least()
    }

    // Whether a renumbering of the squares turns one gluing into the other.
    pub fn same_surface(&self, other: &Origami) -> bool
        ensures exactly { T result ↔ Renumbered self.now.gluing other.now.gluing }
        ensures one_form { OneForm self.now.gluing other.now.gluing }
    {
        self.least_form() == other.least_form()
    }
}
