// A finished table: links that are sound, for reading.
ghost use Rattle.std.specs.Prelude.{◌≡◌, ◌≤◌, true, length};
ghost use Rattle.table.specs.SoundTest.{sound};

use crate::link::Link;
use crate::links::Links;

pub mod acting;
mod maker;
mod questions;

// That the links are sound is in the type: a value of it is only made where they passed the test. Plain links and no `Links`,
// since the promises of its calls are told by them, also to the crates above.
#[derive(Clone, Copy)]
pub struct Finished<'a> {
    links: &'a [Link],
    ghost few: { length links.now ≤ 65000 },
    ghost good: { sound links.now ≡ true },
}

impl<'a> Finished<'a> {
    // The table of links that passed the test.
    pub(crate) fn of(links: &'a [Link]) -> Finished<'a>
        requires few { length links.now ≤ 65000 }
        requires good { sound links.now ≡ true }
        ensures { result.links.now ≡ links.now }
    {
        Finished { links }
    }

    // The links of the table, a row each.
    pub fn links(&self) -> &'a [Link]
        ensures { result.now ≡ self.now.links.now }
    {
        self.links
    }

    // The same, for reading.
    fn read(&self) -> Links<'a>
        ensures { result.links.now ≡ self.now.links.now }
    {
        Links::of(self.links)
    }
}
