// Laws of tests and of runs of stores, in specs/ alone.
#![tactic(auto)]
