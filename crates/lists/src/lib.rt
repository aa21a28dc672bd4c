#![tactic(auto)]

// No code: words on lists and numbers (specs/), and their laws (proofs/).
