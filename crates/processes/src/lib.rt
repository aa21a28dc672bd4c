// The calls on processes, 06 to 0a, in place on the lent bytes: one file a call.
#![tactic(auto)]

pub mod kill;
pub mod make_process;
pub mod resume;
pub mod suspend;
pub mod target;
pub mod yields;
