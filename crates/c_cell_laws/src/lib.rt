// The laws of the cells as numbers (specs/): each is read from its own place and written to it, and their limits are check 1.
#![tactic(auto)]
