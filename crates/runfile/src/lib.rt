#![tactic(auto)]

// The run file: the numbers that it begins with, and reading it.
pub mod numbers;
pub mod reading;
