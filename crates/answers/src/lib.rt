// Answers: from a job to the listing of its table, and from the text of a job to what is printed for it.
#![tactic(auto)]

pub mod answer;
pub mod reply;
