// No code: what a whole conversation prints, in specs and proofs.
#![tactic(auto)]
