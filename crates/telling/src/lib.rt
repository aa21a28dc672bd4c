#![tactic(auto)]

// No code: each call told in the words of the paper's table (specs/), and that the rules do so (proofs/).
