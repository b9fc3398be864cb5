// Which matrices belong to the group of a job.
ghost use Rattle.std.specs.Prelude.{◌≡◌, IfOk, string_bytes, Decides};
ghost use Rattle.jobs.specs.Jobs.{level_task};
ghost use Rattle.jobs.specs.Members.{Answers, InGroup, IsMember, answer_line};
ghost use Rattle.jobs.specs.Objects.{kind_of, level_of};
ghost use Rattle.modular.specs.Matrix.{entries};
ghost use Rattle.numbers.specs.Residues.{Cong};

use crate::job::{Job, Object};
use modular::matrix;
use modular::matrix::Matrix;
use std::alloc::{AllocError, Global};

// Whether x and y differ by a multiple of n.
fn congruent(x: i64, y: i64, n: u8) -> bool
    ensures { Decides result (Cong n x y) }
{
    if n == 0 {
        return x == y;
    }
    let n = i64::from(n);
    x.rem_euclid(n) == y.rem_euclid(n)
}

// Whether a matrix has the congruences that define the group of a level.
fn in_group(object: Object, m: Matrix) -> bool
    ensures { Decides result (InGroup (kind_of object) (level_of object) (entries m)) }
{
    let [[a, b], [c, d]] = m;
    match object {
        Object::Lines(lines) => congruent(c, 0, lines.level()),
        Object::Vectors(vectors) => congruent(c, 0, vectors.level())
            && congruent(d, 1, vectors.level()),
        Object::Matrices(matrices) => {
            let n = matrices.level();
            congruent(a, 1, n) && congruent(b, 0, n) && congruent(c, 0, n) && congruent(d, 1, n)
        }
    }
}

// Whether a matrix is a member of the job's action. A sign on b and c changes no congruence with 0, so the group of a level
// is its own mirror.
pub fn is_member(job: &Job<Object>, m: Matrix) -> bool
    ensures { Decides result (IsMember (level_task job.now) (entries m)) }
{
    matrix::determinant(m) == 1 && in_group(job.given, m)
}

fn answer(member: bool) -> &'static str
    ensures { result.now ≡ answer_line member }
{
    if member {
        "member=yes\n"
    } else {
        "member=no\n"
    }
}

// A line for each matrix of the job.
pub fn answers(heap: Global, job: &Job<Object>) -> Result<String, AllocError>
    ensures { IfOk result (λ s. Answers (level_task job.now) (string_bytes s)) }
{
    let mut text = String::new(heap);
    for m in &job.matrices {
        text.push_str(answer(is_member(job, *m)))?;
    }
    Ok(text)
}
