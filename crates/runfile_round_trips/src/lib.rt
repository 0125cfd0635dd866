// The laws of run files (specs/RoundTrip.antt): what is written is read back, and what is read is written back.
#![tactic(auto)]
