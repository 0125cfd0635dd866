// Division by sixteen passes of SUBC, in specs/ and proofs/ alone: no function is needed here.
#![tactic(auto)]
