// Arguments as a call reads them: an argument as the number of an entry. The laws of a count one up or one down are in proofs/.
#![tactic(auto)]

pub mod index;
