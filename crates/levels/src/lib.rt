// The three level actions: the modular group acting on vectors, lines and matrices modulo a level.
#![tactic(auto)]

pub mod level;
pub mod lines;
pub mod matrices;
#[cfg(test)]
mod tests;
pub mod vectors;
