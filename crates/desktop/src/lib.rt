#![tactic(auto)]

// The library for programs in C: the emulator's functions over slices of numbers (include/crowmitten.h).
pub mod files;
pub mod running;
pub mod sent;
pub mod window;

// How many numbers the cells of a machine are.
pub const CELLS: usize = c_cells::CELLS;

// How many numbers a run hands out.
pub const RESULTS: usize = c_results::RESULTS;
