// Answers, printed and counted.
use levels::level::Refusal as LevelRefusal;
use origami::refusal::Refusal as OrigamiRefusal;
use std::fmt;
use table::refusal::Refusal;

// What a call answers, so far as it is compared here. Refusals of three libraries are told by the number that they print.
#[derive(Clone, Copy, PartialEq, Eq)]
pub enum Answer {
    Accepted,
    // whether two things are the same
    Same(bool),
    // how many there are, or the number of a row
    Number(usize),
    // declined with a number
    Declined(u8),
    // declined with a number, for the letter at a place
    DeclinedAt(u8, usize),
}

impl From<u16> for Answer {
    fn from(row: u16) -> Answer {
        Answer::Number(usize::from(row))
    }
}

impl From<usize> for Answer {
    fn from(number: usize) -> Answer {
        Answer::Number(number)
    }
}

impl From<bool> for Answer {
    fn from(same: bool) -> Answer {
        Answer::Same(same)
    }
}

impl From<LevelRefusal> for Answer {
    fn from(refusal: LevelRefusal) -> Answer {
        Answer::Declined(refusal.number())
    }
}

impl From<OrigamiRefusal> for Answer {
    fn from(refusal: OrigamiRefusal) -> Answer {
        Answer::Declined(refusal.number())
    }
}

impl From<Refusal> for Answer {
    fn from(refusal: Refusal) -> Answer {
        match refusal {
            Refusal::NotALetter(place) | Refusal::EmptyEdge(place) => {
                Answer::DeclinedAt(refusal.number(), place)
            }
            _ => Answer::Declined(refusal.number()),
        }
    }
}

impl Answer {
    // What a call gives, or its refusal.
    pub fn told<V: Into<Answer>, E: Into<Answer>>(res: Result<V, E>) -> Answer {
        match res {
            Ok(given) => given.into(),
            Err(refusal) => refusal.into(),
        }
    }

    // Whether a call is accepted, whatever it gives.
    pub fn accepted<V: Drop, E: Into<Answer>>(res: Result<V, E>) -> Answer {
        match res {
            Ok(_) => Answer::Accepted,
            Err(refusal) => refusal.into(),
        }
    }
}

impl fmt::Display for Answer {
    fn fmt<W: fmt::Write>(&self, f: &mut fmt::Formatter<W>) -> fmt::Result {
        match *self {
            Answer::Accepted => write!(f, "accepted"),
            Answer::Same(true) => write!(f, "the same"),
            Answer::Same(false) => write!(f, "not the same"),
            Answer::Number(n) => write!(f, "{n}"),
            Answer::Declined(number) => write!(f, "declined with {number}"),
            Answer::DeclinedAt(number, place) => write!(f, "declined with {number} at {place}"),
        }
    }
}

// Prints cases, and counts them and those that differ from what was expected.
#[derive(Drop)]
pub struct Tally<'a> {
    pub rt: &'a HostRuntime,
    cases: usize,
    differ: usize,
}

impl<'a> Tally<'a> {
    pub fn new(rt: &'a HostRuntime) -> Tally<'a> {
        Tally {
            rt,
            cases: 0,
            differ: 0,
        }
    }

    // Prints a case, and counts it.
    pub fn compare<C: fmt::Display + Drop, V: fmt::Display + PartialEq + Drop>(
        &mut self,
        case: C,
        got: V,
        expected: V,
    ) -> anyhow::Result<()> {
        self.cases = self.cases.saturating_add(1);
        if got == expected {
            println!(self.rt; "{case}: {got}, expected {expected}")?;
        } else {
            self.differ = self.differ.saturating_add(1);
            println!(self.rt; "{case}: {got}, expected {expected} DIFFERS")?;
        }
        Ok(())
    }

    // Prints the last line.
    pub fn close(&self) -> anyhow::Result<()> {
        println!(self.rt; "{} cases, {} differ", self.cases, self.differ)?;
        Ok(())
    }
}
