// The law of a stack of frames, in specs/ and proofs/ alone: no function is needed here.
#![tactic(auto)]
