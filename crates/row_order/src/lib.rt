// The laws of the transform's row order, in specs/ and proofs/ alone: no function is needed here.
#![tactic(auto)]
