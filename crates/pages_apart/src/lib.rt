// The laws of the encodings (specs/Apart.antt): no two pages have a word in common, but for ZAC, NOP and LARP.
#![tactic(auto)]
