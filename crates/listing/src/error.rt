// Why there is no listing.
ghost use Rattle.std.specs.Prelude.{◌≡◌};
ghost use Rattle.listing.specs.declared.error.Error.TheVariants.{Declined, Memory};

use std::alloc::AllocError;
use std::fmt;
use table::refusal::Refusal;

// A matrix is declined, by the table's refusal, or memory ran out. The errors of `jobs` have the same shape, but other things
// convert into them: of a generic one only this enum would be shared.
#[derive(Clone, Copy, Debug, thiserror::Error)]
pub enum Error {
    #[error("the table declines: {0}")]
    Declined(Refusal),
    #[error("out of memory")]
    Memory,
}

impl From<Refusal> for Error {
    ghost from_gives = { λ e r. r ≡ Declined e };

    fn from(refusal: Refusal) -> Error {
        Error::Declined(refusal)
    }
}

impl From<AllocError> for Error {
    ghost from_gives = { λ _ r. r ≡ Memory };

    fn from(_: AllocError) -> Error {
        Error::Memory
    }
}

// A text that is written to fails only where it finds no memory to grow.
impl From<fmt::Error> for Error {
    ghost from_gives = { λ _ r. r ≡ Memory };

    fn from(_: fmt::Error) -> Error {
        Error::Memory
    }
}
