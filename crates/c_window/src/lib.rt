#![tactic(auto)]

// The fetch window of a machine in numbers.
pub mod window;
