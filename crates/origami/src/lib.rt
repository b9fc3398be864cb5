// Origamis: squares glued along their sides, and the modular group's action on them.
#![tactic(auto)]

mod form;
pub mod gluing;
mod listing;
mod numbering;
pub mod origami;
pub mod refusal;
#[cfg(test)]
mod tests;
