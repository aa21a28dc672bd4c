// From the bench's input, chunk by chunk, to its answers: all but reading and writing.
#![tactic(auto)]

pub mod feed;
mod part;
