// One line of the bench: read as a call, answered, and its answer written.
#![tactic(auto)]

pub mod answer;
pub mod hex;
pub mod line;
