// From the text of a job to the text that answers it.
ghost use Rattle.jobs.specs.Replies.{NamesFault, Replies, reply_bytes};
ghost use Rattle.std.specs.Prelude.{◌≡◌, IfOk};

use crate::fault::Error;
use crate::{members, read};
use std::alloc::{AllocError, Global};

// What is printed for a text: the answers of one that is accepted, or why it is declined.
#[derive(Drop)]
pub enum Reply {
    Accepted(String),
    Declined(String),
}

impl Reply {
    // What is printed.
    pub fn text(&self) -> &str
        ensures { result.now ≡ reply_bytes self.now }
    {
        match self {
            Reply::Accepted(text) | Reply::Declined(text) => text.as_str(),
        }
    }
}

// The reply to a text that gave no job.
pub fn declined(heap: Global, error: Error) -> Result<Reply, AllocError>
    ensures { IfOk result (NamesFault error) }
{
    match error {
        Error::Refused(refusal) => Ok(Reply::Declined(format!(in heap; "{refusal}\n")?)),
        Error::Memory => Err(AllocError),
    }
}

// The answers to a level job, or the refusal of its first faulty line.
pub fn reply_to(heap: Global, text: &[u8]) -> Result<Reply, AllocError>
    ensures { IfOk result (Replies text.now) }
{
    match read::read_level(heap, text) {
        Ok(job) => Ok(Reply::Accepted(members::answers(heap, &job)?)),
        Err(error) => declined(heap, error),
    }
}
