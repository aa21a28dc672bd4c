// The row of processes, who is found in it and how one moves along it; the search for what is free.
#![tactic(auto)]

pub mod row;
pub mod search;
