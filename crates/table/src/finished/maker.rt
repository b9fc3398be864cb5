// A finished table from a stored list of links.
ghost use Rattle.std.specs.Prelude.{◌≡◌, Ok, Err, MatchResult};
ghost use Rattle.table.specs.Finished.{SoundLinksLaw};
ghost use Rattle.table.specs.Runs.{EveryStoredList, storing};
ghost use Rattle.table.specs.SoundTest.{SoundTestTells};

use crate::finished::Finished;
use crate::growing::storable;
use crate::link::Link;
use crate::links::Links;
use crate::refusal::Refusal;

impl<'a> Finished<'a> {
    // The table of 1 to 65,000 sound links; any other list is declined. The refusal is told as the caller's own error.
    pub fn stored<E: From<Refusal>>(links: &'a [Link]) -> Result<Finished<'a>, E>
        ensures answer { MatchResult result (λ f. storing links.now ≡ Ok f.links.now) (λ e. (x : Refusal) × (storing links.now ≡ Err x) × E.From.from_gives x e) }
        ensures every_list { EveryStoredList }
        ensures law { SoundLinksLaw }
        ensures test { SoundTestTells }
    {
        if !storable(links.len()) {
            return Err(E::from(Refusal::Memory));
        }
        if !Links::of(links).is_sound() {
            return Err(E::from(Refusal::Unsound));
        }
        Ok(Finished::of(links))
    }
}
