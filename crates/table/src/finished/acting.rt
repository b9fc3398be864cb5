// A finished table is an action: its records are numbers, and its points the row numbers.
ghost use Rattle.std.specs.Prelude.{◌≡◌, nat_eq};
ghost use Rattle.modular.specs.declared.letter.Letter.TheVariants.{T, S};
ghost use Rattle.table.specs.Acting.{IsRow};
ghost use Rattle.table.specs.Links.{next};
ghost use Rattle.table.specs.laws.TestedLinks.{sound_laws};

use crate::finished::Finished;
use modular::action::Action;
use modular::letter::Letter;

impl<'a> Action for Finished<'a> {
    type Record = u16;

    ghost point = { λ f. IsRow f.links.now };

    ghost start = { λ _. 0 };

    ghost step_t = { λ f. next f.links.now T };

    ghost step_s = { λ f. next f.links.now S };

    ghost agrees = { λ _. nat_eq };

    ghost laws = { λ f. sound_laws f.links.now f.good };

    fn first(&self) -> u16 {
        0
    }

    fn t(&self, row: u16) -> u16 {
        self.read().next(Letter::T, row)
    }

    fn s(&self, row: u16) -> u16 {
        self.read().next(Letter::S, row)
    }

    fn same(&self, row: u16, other: u16) -> bool {
        row == other
    }
}
