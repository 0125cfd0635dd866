#![tactic(auto)]

// The machine's cells as numbers, for callers that have no Machine: in the order of document 01, "The cells of the machine".
pub mod checking;
pub mod reading;
pub mod storing;

// How many numbers the cells of a machine are.
pub const CELLS: usize = 34;
