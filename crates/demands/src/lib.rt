#![tactic(auto)]
// No code: what holds of every kernel that the contract of `cottonsedge_call` allows (specs/), and the theorems (proofs/).
