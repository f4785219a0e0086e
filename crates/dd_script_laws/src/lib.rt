//! Reading a script undoes writing it: laws, with nothing to run.
#![tactic(auto)]

mod laws;

pub use laws::{reading_undoes_spelling, scripts_read_back};
