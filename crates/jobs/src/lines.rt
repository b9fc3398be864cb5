// The lines of a job, each read at the front of a text and handed on with the text after it.
ghost use Rattle.std.specs.Prelude.{◌≡◌, ℕ, List, ℤ, pos, MatchResult, ◌≢◌};
ghost use Rattle.jobs.specs.Bytes.{Keyed, Unkeyed};
ghost use Rattle.jobs.specs.Format.{every, KindLine, KindFault, LevelSaid, LevelFault, MirrorLine, MirrorFault, MatrixLine, MatrixFaulty, SaysMatrix, IsMatrix, Entry};
ghost use Rattle.jobs.specs.Numbers.{capped};
ghost use Rattle.jobs.specs.Ranges.{Fits, capped_matrix};
ghost use Rattle.jobs.specs.declared.fault.Fault.TheVariants.{Form, Range};
ghost use Rattle.jobs.specs.declared.fault.FieldFault.TheVariants.{Unreadable};
ghost use Rattle.jobs.specs.declared.fault.MatrixFault.TheVariants.{Determinant};
ghost use Rattle.modular.specs.Matrix.{M2, entries, rows, det};

use crate::fault::{Fault, FieldFault, MatrixFault};
use crate::job::{Kind, Subject};
use crate::{bytes, number};
use modular::matrix;
use modular::matrix::Matrix;

// Where a number stands: on a line whose numbers have no sign, or on a matrix line with so many matrix lines before it.
#[derive(Clone, Copy)]
pub enum Place {
    Natural,
    Matrix(usize),
}

// Whether a number is in the range of its line.
pub fn ranged(place: Place, number: i64) -> Result<(), Fault>
    ensures { MatchResult result (λ _. Fits place number) (λ e. (e ≡ Range) × (Fits place number → ⊥)) }
{
    match (place, number) {
        (Place::Natural, n) if n > 1_000_000_000 => Err(Fault::Range),
        (Place::Matrix(before), n) if before >= 100 || n < -1_000_000_000 || n > 1_000_000_000 =>
            Err(Fault::Range),
        _ => Ok(()),
    }
}

// The body of the line at the front of a text, behind its key, and the text after the line.
pub fn body<'a>(key: &[u8], text: &'a [u8]) -> Result<(&'a [u8], &'a [u8]), Fault>
    ensures { MatchResult result (λ p. Keyed key.now text.now p.0.now p.1.now) (λ e. (e ≡ Form) × Unkeyed key.now text.now) }
{
    bytes::keyed(key, text).ok_or(Fault::Form)
}

// `kind=` and the name of a subject.
pub fn kind_line(text: &[u8]) -> Result<(Subject, &[u8]), Fault>
    ensures { MatchResult result (λ p. KindLine every text.now p.0 p.1.now) (λ e. KindFault every text.now e) }
{
    let (body, rest) = body(b"kind=", text)?;
    match body {
        b"lines" => Ok((Subject::Level(Kind::Lines), rest)),
        b"vectors" => Ok((Subject::Level(Kind::Vectors), rest)),
        b"matrices" => Ok((Subject::Level(Kind::Matrices), rest)),
        b"origami" => Ok((Subject::Origami, rest)),
        _ => Err(Fault::Form),
    }
}

// `level=` and a number; whether there is such a level is left to the maker of the object.
pub fn level_line(text: &[u8]) -> Result<(u32, &[u8]), Fault>
    ensures { MatchResult result (λ p. LevelSaid text.now p.0 p.1.now) (λ e. LevelFault text.now e) }
{
    let (body, rest) = body(b"level=", text)?;
    let level = number::natural(body)?;
    ranged(Place::Natural, i64::from(level))?;
    Ok((level, rest))
}

// `mirror=` and yes or no.
pub fn mirror_line(text: &[u8]) -> Result<(bool, &[u8]), Fault>
    ensures { MatchResult result (λ p. MirrorLine text.now p.0 p.1.now) (λ e. MirrorFault text.now e) }
{
    let (body, rest) = body(b"mirror=", text)?;
    match body {
        b"yes" => Ok((true, rest)),
        b"no" => Ok((false, rest)),
        _ => Err(Fault::Form),
    }
}

// The number before the first comma, and what stands after that.
fn entry_then(body: &[u8]) -> Result<(i64, &[u8]), FieldFault>
    ensures { MatchResult result (λ p. (z : ℤ) × Entry body.now z p.1.now × (p.0 ≡ capped z)) (λ e. (e ≡ Unreadable) × ((z : ℤ) (rest : List ℕ) → Entry body.now z rest → ⊥)) }
{
    let (field, rest) = bytes::split(body, b',').ok_or(FieldFault::Unreadable)?;
    Ok((number::integer(field)?, rest))
}

// The four entries that a matrix line spells.
fn four_entries(body: &[u8]) -> Result<Matrix, FieldFault>
    ensures { MatchResult result (λ m. (x : M2) × SaysMatrix body.now x × (m ≡ rows (capped_matrix x))) (λ e. (e ≡ Unreadable) × ((x : M2) → SaysMatrix body.now x → ⊥)) }
{
    let (a, rest) = entry_then(body)?;
    let (b, rest) = entry_then(rest)?;
    let (c, rest) = entry_then(rest)?;
    let d = number::integer(rest)?;
    Ok([[a, b], [c, d]])
}

// Whether a matrix line is not one too many, and the entries are in range.
fn in_range(before: usize, m: Matrix) -> Result<(), Fault>
    ensures { MatchResult result (λ _. IsMatrix before (entries m)) (λ e. (e ≡ Range) × (IsMatrix before (entries m) → ⊥)) }
{
    let [[a, b], [c, d]] = m;
    ranged(Place::Matrix(before), a)?;
    ranged(Place::Matrix(before), b)?;
    ranged(Place::Matrix(before), c)?;
    ranged(Place::Matrix(before), d)
}

fn unimodular(m: Matrix) -> Result<(), MatrixFault>
    ensures { MatchResult result (λ _. det (entries m) ≡ pos 1) (λ e. (e ≡ Determinant) × (det (entries m) ≢ pos 1)) }
{
    if matrix::determinant(m) == 1 {
        Ok(())
    } else {
        Err(MatrixFault::Determinant)
    }
}

// `matrix=` and four numbers; `before` matrix lines stand before it.
pub fn matrix_line(text: &[u8], before: usize) -> Result<(Matrix, &[u8]), Fault>
    ensures { MatchResult result (λ p. MatrixLine before text.now (entries p.0) p.1.now) (λ e. MatrixFaulty before text.now e) }
{
    let (body, rest) = body(b"matrix=", text)?;
    let m = four_entries(body)?;
    in_range(before, m)?;
    unimodular(m)?;
    Ok((m, rest))
}
