// The calls on semaphores, 01 to 05 and 0b, in place on the lent bytes: one file a call.
#![tactic(auto)]

pub mod count;
pub mod delete;
pub mod make_semaphore;
pub mod release;
pub mod reset;
pub mod signal;
pub mod target;
pub mod wait;
