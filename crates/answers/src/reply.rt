// From the text of a job to the text that answers it.
ghost use Rattle.std.specs.Prelude.{◌≡◌, IfOk};
ghost use Rattle.answers.specs.Replies.{NamesRefusal, Replies};

use crate::answer::answer;
use jobs::read::read;
use jobs::reply::{Reply, declined};
use listing::error::Error as Unlisted;
use std::alloc::{AllocError, Global};

// What is printed where there is no listing: the table's refusal, with its place, which is no line. A refusal of a job prints itself
// so; one of a table prints a text for people, so its number and place are written here.
fn unlisted(heap: Global, error: Unlisted) -> Result<Reply, AllocError>
    ensures { IfOk result (NamesRefusal error) }
{
    match error {
        Unlisted::Declined(refusal) => {
            let number = refusal.number();
            let place = refusal.place();
            Ok(Reply::Declined(format!(in heap; "refused={number},{place}\n")?))
        }
        Unlisted::Memory => Err(AllocError),
    }
}

// The listing of a job; or the refusal of the first faulty line, or of a table with too many rows.
pub fn reply_to(heap: Global, text: &[u8]) -> Result<Reply, AllocError>
    ensures { IfOk result (Replies text.now) }
{
    match read(heap, text) {
        Ok(job) => match answer(heap, &job) {
            Ok(text) => Ok(Reply::Accepted(text)),
            Err(error) => unlisted(heap, error),
        },
        Err(error) => declined(heap, error),
    }
}
