#![tactic(auto)]

// No code: what is promised over any run of calls (specs/), and the theorems (proofs/).
