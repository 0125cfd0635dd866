#![tactic(auto)]

// A line's fields, put down in lent bytes.
pub mod fitting;
mod numbers;
mod parts;
