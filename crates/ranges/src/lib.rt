// What a step keeps in range, in specs/ and proofs/ alone: no function is needed here.
#![tactic(auto)]
