// Document 01, and what 02 adds, as definitions: specs/ is what a reader must believe, proofs/ what is computed from them. No code.
#![tactic(auto)]
