// Demand 3 of document 01: no code, only the claim (specs/) about the entries of inspections, and its proof (proofs/).
#![tactic(auto)]
