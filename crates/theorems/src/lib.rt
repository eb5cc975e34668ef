// What is proved of the definition: proofs/ only, no code.
#![tactic(auto)]
