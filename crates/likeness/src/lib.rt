// No code: ways to write a document otherwise so that its tags say the same, and in which of them a refusal keeps its number. specs/Alike.antt has the ways, proofs/ the laws.
#![tactic(auto)]
