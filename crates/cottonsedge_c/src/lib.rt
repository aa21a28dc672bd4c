// The four functions that firmware links, each the one of `cottonsedge` with the same clauses: C links them by these names, and only what stands here is exported.
#![tactic(auto)]

pub mod boot;
pub mod call;
pub mod check;
pub mod rows;
