// "Two documents of equal length that differ only in digits of readable Qty values get the same answer": a law over the definitions, and no code.
#![tactic(auto)]
