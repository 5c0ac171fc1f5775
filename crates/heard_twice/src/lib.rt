// Request 1, a frame heard twice: no code, only the claim (specs/) about the entries of inspections, and its proof (proofs/).
#![tactic(auto)]
