// The check that lent bytes are sound tables. Its loops take no branch that sound tables could make guess wrong, and where nothing is looked up by number they are done many bytes at a time.
#![tactic(auto)]

pub mod check;
pub mod form;
pub mod ready;
pub mod row;
pub mod running;
pub mod slots;
