// Whether each count goes with its queue: those that wait are tallied, and the counts, squeezed into bytes, compared with the tallies.
#![tactic(auto)]

pub mod counts;
pub mod formed;
pub mod squeeze;
pub mod waiters;
