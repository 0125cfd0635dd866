// Runs of the exposure code, computed, in specs/ alone: no function is needed here.
#![tactic(auto)]
