// Laws of steps and runs, in specs/ and proofs/ alone: no function is needed here.
#![tactic(auto)]
