// What a growing table keeps besides the memory that is lent to it, and what a fill answers.

ghost use Rattle.std.specs.Prelude.{◌≡◌, ◌&&◌, ◌==◌};

// The rows and the links lent at open, the rows held, and the edges filled. Counts of their own, since the memory is the
// caller's, who lends it at each call.
#[derive(Clone, Copy, Debug, PartialEq, Eq)]
pub struct Counts {
    pub size: usize,
    pub held: usize,
    pub filled: usize,
}

impl Counts {
    // Whether so many rows and links are as many as at open.
    pub(crate) fn as_lent(self, rows: usize, links: usize) -> bool
        ensures { result ≡ (rows == self.size && links == self.size) }
    {
        rows == self.size && links == self.size
    }
}

// The row to which the filled edge leads, and whether it is a new one. Every fill has both, so it is no enum: callers read the
// row of each.
#[derive(Clone, Copy, Debug, PartialEq, Eq)]
pub struct Filled {
    pub row: usize,
    pub new: bool,
}
