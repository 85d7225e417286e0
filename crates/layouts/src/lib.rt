// No code: the fixed layout of a content, and that it spells the content. specs/Layout.antt has the definitions, proofs/ the laws.
#![tactic(auto)]
