// Which digits stand where is not seen by the reader: laws over the definitions, and no code.
#![tactic(auto)]
