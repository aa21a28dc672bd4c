#![tactic(auto)]
// The tables as 698 lent bytes, read and written where they stand.
pub mod decode;
pub mod encode;
pub mod fields;
pub mod number;
pub mod offsets;
pub mod state;
pub mod word;
