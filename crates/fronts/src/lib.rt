// No code: that what stands behind an item does not change it, nor what it says. specs/Front.antt has the definition, proofs/ the laws.
#![tactic(auto)]
