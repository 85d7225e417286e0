// No code: what an accepted document is, said without a machine. specs/ has the definitions, proofs/Theorems.antt what is proved of them.
#![tactic(auto)]
