#![tactic(auto)]

// 16 and 32-bit words: their halves, the signed reading, and what AND, OR, XOR and CMPL make of them.
pub mod bits;
pub mod logic;
