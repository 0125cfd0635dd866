// Demand 3 over the emulator's runs, as laws; specs/ has all of it.
#![tactic(auto)]
