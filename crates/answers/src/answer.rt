// The listing that answers a job.
ghost use Rattle.std.specs.Prelude.{map};
ghost use Rattle.answers.specs.Answers.{GrownFor};
ghost use Rattle.jobs.specs.Acting.{seen_s, seen_t};
ghost use Rattle.jobs.specs.Jobs.{task};
ghost use Rattle.jobs.specs.Objects.{kind_of, level, level_of};
ghost use Rattle.listing.specs.Grown.{GrownOr};
ghost use Rattle.modular.specs.Matrix.{entries};

use jobs::job::{Given, Job, Object};
use listing::error::Error;
use listing::grown::list;
use modular::action::Action;
use modular::matrix::Matrix;
use modular::mirror::Mirror;
use std::alloc::Global;

// The rows that the table of a job may have.
pub const ROOM: usize = 1200;

// The listing of an action, or of the mirror above it.
fn seen<A: Action + Drop>(
    heap: Global,
    action: A,
    mirror: bool,
    matrices: &[Matrix],
) -> Result<String, Error>
    ensures { GrownOr (A.start action) (seen_t mirror (A.step_t action) (A.step_s action)) (seen_s mirror (A.step_t action) (A.step_s action)) 1200 (map entries matrices.now) result }
{
    if mirror {
        list(heap, Mirror::new(action), ROOM, matrices)
    } else {
        list(heap, action, ROOM, matrices)
    }
}

// The listing of a level action, or of the mirror above it. An arm for each kind: their points differ in type, so that an
// Object is no action itself.
fn level(heap: Global, object: Object, mirror: bool, matrices: &[Matrix]) -> Result<String, Error>
    ensures { GrownFor (level (kind_of object) (level_of object)) mirror (map entries matrices.now) result }
{
    match object {
        Object::Lines(lines) => seen(heap, lines, mirror, matrices),
        Object::Vectors(vectors) => seen(heap, vectors, mirror, matrices),
        Object::Matrices(residues) => seen(heap, residues, mirror, matrices),
    }
}

// The listing of a job's table, with a line for each of its matrices.
pub fn answer(heap: Global, job: &Job<Given>) -> Result<String, Error>
    ensures { GrownFor (task job.now).thing (task job.now).mirror (task job.now).matrices result }
{
    let matrices = job.matrices.as_slice();
    match job.given {
        Given::Level(object) => level(heap, object, job.mirror, matrices),
        Given::Origami(origami) => seen(heap, origami, job.mirror, matrices),
    }
}
