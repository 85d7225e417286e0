// No code: what is promised of the writer. proofs/Promises.antt states it.
#![tactic(auto)]
