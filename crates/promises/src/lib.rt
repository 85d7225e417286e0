// No code: what is promised of the document reader stands in proofs/Promises.antt, over the definitions that the reader's contract cites.
#![tactic(auto)]
