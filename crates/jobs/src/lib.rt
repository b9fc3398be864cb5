// Jobs: from the text of a job to a value, or to the refusal of its first faulty line; and a member line for each matrix of
// a level job.
#![tactic(auto)]

mod bytes;
pub mod fault;
pub mod job;
mod lines;
pub mod list;
pub mod members;
mod number;
pub mod object;
pub mod read;
pub mod reply;
mod squares;
