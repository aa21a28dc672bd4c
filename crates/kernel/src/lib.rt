// The eleven calls by their numbers, on the lent bytes.
#![tactic(auto)]

pub mod enter;
