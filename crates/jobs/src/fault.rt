// What is wrong with a job, and on which line.
ghost use Rattle.std.specs.Prelude.{◌≡◌, Some};
ghost use Rattle.jobs.specs.declared.fault.Error.TheVariants.{Memory, Refused};
ghost use Rattle.jobs.specs.declared.fault.Fault.TheVariants.{Field, Level, Origami, Matrix};
ghost use Rattle.jobs.specs.declared.fault.LineError.TheVariants.{Faulty, Memory as LineMemory};
ghost use Rattle.jobs.specs.Faults.{number_of, refusal_text};

use levels::level::Refusal as LevelRefusal;
use origami::refusal::Refusal as OrigamiRefusal;
use std::alloc::{AllocError, AllocFailed as NoRoom};
use std::fmt;

// Of the fields of a line: they do not read as the numbers that belong there.
#[derive(Clone, Copy, Debug, PartialEq, Eq)]
pub enum FieldFault {
    Unreadable,
}

// Of a matrix that was read: its determinant is not 1.
#[derive(Clone, Copy, Debug, PartialEq, Eq)]
pub enum MatrixFault {
    Determinant,
}

// Of a line: its form, its fields, the range of its numbers, or what the maker of its object or its matrix declines, whole.
#[derive(Clone, Copy, Debug, PartialEq, Eq)]
pub enum Fault {
    Form,
    Field(FieldFault),
    Range,
    Level(LevelRefusal),
    Origami(OrigamiRefusal),
    Matrix(MatrixFault),
}

impl From<FieldFault> for Fault {
    ghost from_gives = { λ e r. r ≡ Field e };

    fn from(fault: FieldFault) -> Fault {
        Fault::Field(fault)
    }
}

impl From<LevelRefusal> for Fault {
    ghost from_gives = { λ e r. r ≡ Level e };

    fn from(refusal: LevelRefusal) -> Fault {
        Fault::Level(refusal)
    }
}

impl From<OrigamiRefusal> for Fault {
    ghost from_gives = { λ e r. r ≡ Origami e };

    fn from(declined: OrigamiRefusal) -> Fault {
        Fault::Origami(declined)
    }
}

impl From<MatrixFault> for Fault {
    ghost from_gives = { λ e r. r ≡ Matrix e };

    fn from(fault: MatrixFault) -> Fault {
        Fault::Matrix(fault)
    }
}

impl Fault {
    // The number under which the fault is known outside, which the rules of the project fix.
    pub fn number(self) -> u8
        ensures { result ≡ number_of self }
    {
        match self {
            Fault::Form => 1,
            Fault::Field(FieldFault::Unreadable) => 2,
            Fault::Range => 3,
            Fault::Level(refusal) => refusal.number(),
            Fault::Origami(refusal) => refusal.number(),
            Fault::Matrix(MatrixFault::Determinant) => 6,
        }
    }
}

// Why a line gave no list or no object: it is faulty, or memory ran out.
// Not one type with Error, generic in the fault: what converts into each differs, so they would share these four lines alone.
#[derive(Clone, Copy, Debug, PartialEq, Eq)]
pub enum LineError {
    Faulty(Fault),
    Memory,
}

impl From<Fault> for LineError {
    ghost from_gives = { λ e r. r ≡ Faulty e };

    fn from(fault: Fault) -> LineError {
        LineError::Faulty(fault)
    }
}

impl From<FieldFault> for LineError {
    ghost from_gives = { λ e r. r ≡ Faulty (Field e) };

    fn from(fault: FieldFault) -> LineError {
        LineError::Faulty(Fault::from(fault))
    }
}

impl From<OrigamiRefusal> for LineError {
    ghost from_gives = { λ e r. r ≡ Faulty (Origami e) };

    fn from(refusal: OrigamiRefusal) -> LineError {
        LineError::Faulty(Fault::from(refusal))
    }
}

impl<T: Drop> From<NoRoom<T>> for LineError {
    ghost from_gives = { λ _ r. r ≡ LineMemory };

    fn from(_: NoRoom<T>) -> LineError {
        LineError::Memory
    }
}

// A fault and the line that has it, counted from 1; line 0 is the text as a whole, as a refusal prints it.
#[derive(Clone, Copy, Debug, PartialEq, Eq)]
pub struct Refusal {
    pub fault: Fault,
    pub line: usize,
}

// Why a text gave no job: it is declined, or memory ran out.
#[derive(Clone, Copy, Debug, PartialEq, Eq)]
pub enum Error {
    Refused(Refusal),
    Memory,
}

impl From<Refusal> for Error {
    ghost from_gives = { λ e r. r ≡ Refused e };

    fn from(refusal: Refusal) -> Error {
        Error::Refused(refusal)
    }
}

impl From<AllocError> for Error {
    ghost from_gives = { λ _ r. r ≡ Memory };

    fn from(_: AllocError) -> Error {
        Error::Memory
    }
}

impl<T: Drop> From<NoRoom<T>> for Error {
    ghost from_gives = { λ _ r. r ≡ Memory };

    fn from(_: NoRoom<T>) -> Error {
        Error::Memory
    }
}

// The line that a refusal prints, less its line feed.
impl fmt::Display for Refusal {
    ghost output = { λ x. Some (refusal_text x) };

    fn fmt<W: fmt::Write>(&self, f: &mut fmt::Formatter<W>) -> fmt::Result {
        let number = self.fault.number();
        let line = self.line;
        write!(f, "refused={number},{line}")
    }
}
