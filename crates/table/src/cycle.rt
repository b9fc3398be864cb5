// The T-cycle of a row.
ghost use Rattle.std.specs.Prelude.{◌≡◌};
ghost use Rattle.table.specs.Placing.{steps_t};
ghost use Rattle.table.specs.Widths.{width};

use crate::links::Links;
use modular::letter::Letter;

impl<'a> Links<'a> {
    // How many T steps lead from a row back to it for the first time. Links that are not sound may never lead back, so the
    // count stops at one step more than there are links.
    pub fn width(self, row: u16) -> usize
        ensures { result ≡ width self.entry.links.now row }
    {
        let most = usize::from(self.rows()) + 1;
        let mut at = row;
        for steps in 1..most {
            at = self.next(Letter::T, at);
            if at == row {
                return steps;
            }
        }
        most
    }

    // Where T to a power leads from a row. Whole rounds lead back, so the steps are at most one round.
    pub fn t_steps(self, power: i64, row: u16) -> u16
        ensures { result ≡ steps_t self.entry.links.now power row }
    {
        let steps = power.rem_euclid(self.width(row) as i64) as usize;
        (0..steps).fold(row, |at, _| self.next(Letter::T, at))
    }
}
