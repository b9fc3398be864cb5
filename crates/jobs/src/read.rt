// Reading the text of a job.
ghost use Rattle.std.specs.Prelude.{◌≡◌, ℕ, ◌≤◌, length, map, vec_items, MatchResult};
ghost use Rattle.jobs.specs.Objects.{kind_of, level_of, level_thing, squares, thing_of};
ghost use Rattle.jobs.specs.Format.{KindLine, RefusedLevel, every};
ghost use Rattle.jobs.specs.Jobs.{Declines, FirstFault, FirstLevelFault, Gives, Named, NamedFault, Reads, ReadsLevel, ReadsMatrices, SpellsJob, SpellsLevelJob, Tail, TailFault, Task, Told, made_on_line, on_line};
ghost use Rattle.jobs.specs.declared.job.Subject.TheVariants as subject;
ghost use Rattle.modular.specs.Matrix.{entries};

use crate::fault::{Error, Fault, LineError, Refusal};
use crate::job::{Given, Job, Kind, Object, Subject};
use crate::{lines, squares};
use modular::matrix::Matrix;
use origami::origami::Origami;
use std::alloc::Global;

// The longest text that is read, in bytes.
pub const LONGEST: usize = 4096;

// Adds the line to a fault.
fn on_line<T>(line: usize, read: Result<T, Fault>) -> Result<T, Refusal>
    ensures { result ≡ on_line line read }
{
    read.map_err(|fault| Refusal { fault, line })
}

// The same where memory may have run out. A function of its own, since an error of a line holds its fault deeper.
fn made_on_line<T>(line: usize, made: Result<T, LineError>) -> Result<T, Error>
    ensures { result ≡ made_on_line line made }
{
    made.map_err(|error| match error {
        LineError::Faulty(fault) => Error::Refused(Refusal { fault, line }),
        LineError::Memory => Error::Memory,
    })
}

// The object of a job, or the fault of its level.
fn object_at(kind: Kind, level: u32) -> Result<Object, Fault>
    ensures { MatchResult result (λ o. (kind_of o ≡ kind) × (level_of o ≡ level)) (RefusedLevel level) }
{
    Ok(Object::new(kind, level)?)
}

// The matrix lines that make up the rest of a text, of which the first is line `first`. Each is read at the front of what is left,
// so there is no index and nothing to iterate over.
fn matrix_lines(heap: Global, first: usize, text: &[u8]) -> Result<Vec<Matrix>, Error>
    requires { first ≤ 5 }
    ensures { ReadsMatrices first text.now result }
{
    let mut list = Vec::new(heap);
    let mut rest = text;
    while !rest.is_empty() {
        let before = list.len();
        let (m, past) = on_line(first + before, lines::matrix_line(rest, before))?;
        list.push(m)?;
        rest = past;
    }
    Ok(list)
}

// The tail of a job about `given`: its line of mirror, which is line `line`, and its matrix lines.
fn tail<G: Drop>(heap: Global, given: G, line: usize, text: &[u8]) -> Result<Job<G>, Error>
    requires { line ≤ 4 }
    ensures { MatchResult result
        (λ j. (j.given ≡ given) × Tail text.now j.mirror (map entries (vec_items j.matrices)))
        (Told (TailFault line text.now)) }
{
    let (mirror, rest) = on_line(line, lines::mirror_line(text))?;
    let matrices = matrix_lines(heap, line + 1, rest)?;
    Ok(Job {
        given,
        mirror,
        matrices,
    })
}

// The first line of a job, unless the text is too long.
fn first_line(text: &[u8]) -> Result<(Subject, &[u8]), Refusal>
    ensures { MatchResult result
        (λ p. (length text.now ≤ 4096) × KindLine every text.now p.0 p.1.now)
        (λ r. FirstFault text.now r.fault r.line × FirstLevelFault text.now r.fault r.line) }
{
    if text.len() > LONGEST {
        return Err(Refusal {
            fault: Fault::Range,
            line: 0,
        });
    }
    on_line(1, lines::kind_line(text))
}

// The lines that say what a level job is about, below its first.
fn level_lines(kind: Kind, text: &[u8]) -> Result<(Object, &[u8]), Refusal>
    ensures { MatchResult result
        (λ p. Named (subject.Level kind) text.now (level_thing p.0) p.1.now)
        (λ r. NamedFault (subject.Level kind) text.now r.fault r.line) }
{
    let (level, rest) = on_line(2, lines::level_line(text))?;
    let object = on_line(2, object_at(kind, level))?;
    Ok((object, rest))
}

// The lines that say what an origami job is about, below its first.
fn origami_lines(heap: Global, text: &[u8]) -> Result<(Origami, &[u8]), Error>
    ensures { MatchResult result
        (λ p. Named subject.Origami text.now (squares p.0.gluing) p.1.now)
        (Told (NamedFault subject.Origami text.now)) }
{
    let (body, rest) = on_line(2, lines::body(b"right=", text))?;
    let right = made_on_line(2, squares::right(heap, body))?;
    let (body, rest) = on_line(3, lines::body(b"up=", rest))?;
    let origami = made_on_line(3, squares::glued(heap, right.as_slice(), body))?;
    Ok((origami, rest))
}

// Reads a job: the one that the text spells, or the refusal of the first faulty line.
pub fn read(heap: Global, text: &[u8]) -> Result<Job<Given>, Error>
    ensures reads { Reads text.now result }
    ensures accepts { (j : Task) → SpellsJob text.now j → Gives thing_of result j }
    ensures first_fault { (f : Fault) (k : ℕ) → FirstFault text.now f k → Declines result f k }
{
    let (subject, rest) = first_line(text)?;
    match subject {
        Subject::Level(kind) => {
            let (object, rest) = level_lines(kind, rest)?;
            tail(heap, Given::Level(object), 3, rest)
        }
        Subject::Origami => {
            let (origami, rest) = origami_lines(heap, rest)?;
            tail(heap, Given::Origami(origami), 4, rest)
        }
    }
}

// Reads a level job: here a first line that names no kind of level action is faulty, so an origami job is declined there.
pub fn read_level(heap: Global, text: &[u8]) -> Result<Job<Object>, Error>
    ensures reads { ReadsLevel text.now result }
    ensures accepts { (j : Task) → SpellsLevelJob text.now j → Gives level_thing result j }
    ensures first_fault { (f : Fault) (k : ℕ) → FirstLevelFault text.now f k → Declines result f k }
{
    let (subject, rest) = first_line(text)?;
    let Subject::Level(kind) = subject else {
        return Err(Error::Refused(Refusal {
            fault: Fault::Form,
            line: 1,
        }));
    };
    let (object, rest) = level_lines(kind, rest)?;
    tail(heap, object, 3, rest)
}
