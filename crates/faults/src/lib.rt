// No code: which faults an item has, said clause by clause, and that the reader names the first one. specs/Faults.antt has the definitions, proofs/ the laws.
#![tactic(auto)]
