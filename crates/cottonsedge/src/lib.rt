// The four entries that firmware calls, over numbers and lent bytes (`cottonsedge_c` exports them), and the call by value for callers in Rattle; nothing is asked of the caller.
#![tactic(auto)]

pub mod answer;
pub mod boot;
pub mod call;
pub mod check;
pub mod rows;
pub mod value;
