// The judge that keeps no state: for each record it looks back over all earlier ones. What it answers is in specs/, and proofs/ has that
// it is what the judge answers. The engine is still to come (02, K6).
#![tactic(auto)]
