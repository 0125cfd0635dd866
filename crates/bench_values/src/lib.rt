// The bench values of document 01 that are marked M.
#![tactic(auto)]
