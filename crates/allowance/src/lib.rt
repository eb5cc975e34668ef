// Request m of document 02, an allowance that always suffices, over the definition and its answer. Theorems in proofs/; no code.
#![tactic(auto)]
