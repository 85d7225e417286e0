// No code: a whole number in decimal digits. specs/Whole.antt has the definition, proofs/Wholes.antt its laws.
#![tactic(auto)]
