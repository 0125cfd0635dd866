// One possible result of every exported function, in specs/ alone: no function is needed here.
#![tactic(auto)]
