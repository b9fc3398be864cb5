// The modular group: letters, words and integer matrices of two rows, and the actions of the group.
#![tactic(auto)]

pub mod acting;
pub mod action;
pub mod letter;
pub mod matrix;
pub mod mirror;
pub mod pair;
pub mod word;
