// The line that `replay` prints of a file, and how long it can be, in specs/ and proofs/ alone: the function stands above, in `replaying`.
#![tactic(auto)]
