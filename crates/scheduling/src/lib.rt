// Who joins the ready list or a queue, and who runs; what a call comes to, and its end.
#![tactic(auto)]

pub mod schedule;
pub mod step;
pub mod waiters;
