// A job: what it is about, whether that is mirrored, and the matrices to ask about.
use levels::lines::Lines;
use levels::matrices::Matrices;
use levels::vectors::Vectors;
use modular::matrix::Matrix;
use origami::origami::Origami;

// The kinds of level action.
#[derive(Clone, Copy, Debug, PartialEq, Eq)]
pub enum Kind {
    Lines,
    Vectors,
    Matrices,
}

// What the first line says that a job is about.
#[derive(Clone, Copy, Debug, PartialEq, Eq)]
pub enum Subject {
    Level(Kind),
    Origami,
}

// A level action.
#[derive(Clone, Copy)]
pub enum Object {
    Lines(Lines),
    Vectors(Vectors),
    Matrices(Matrices),
}

// The action of any job, less its mirror.
#[derive(Clone, Copy)]
pub enum Given {
    Level(Object),
    Origami(Origami),
}

// A job about an action of type G: a level action, or any.
#[derive(Drop)]
pub struct Job<G> {
    pub given: G,
    pub mirror: bool,
    pub matrices: Vec<Matrix>,
}
