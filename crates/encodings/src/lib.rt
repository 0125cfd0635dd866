// The word of an instruction (specs/Encode.antt), and the law that it decodes back to the instruction (proofs/Back.antt).
#![tactic(auto)]
