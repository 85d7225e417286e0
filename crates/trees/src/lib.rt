// No code: what an accepted order of tags is, said without a machine. specs/Trees.antt has the definitions, proofs/ the laws.
#![tactic(auto)]
