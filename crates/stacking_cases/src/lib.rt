// Stacks of frames that are computed, and what they say of the label's figure; specs/ has all of it.
#![tactic(auto)]
