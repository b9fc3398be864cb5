// Coset tables: rows of records, and the links between them.
#![tactic(auto)]

pub mod counts;
mod cycle;
mod edges;
pub mod finished;
mod generator;
pub mod growing;
pub mod law;
mod limit;
pub mod link;
mod links;
pub mod pile;
mod placing;
pub mod refusal;
pub mod shape;
mod soundness;
mod spelling;
mod walk;
