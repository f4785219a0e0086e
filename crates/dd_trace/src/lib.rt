//! What holds of whole lists of steps: laws over runs, with nothing to run.
#![tactic(auto)]

mod laws;

pub use laws::{clients_are_independent, headline, hidden_content, list_is_told, trace_is_the_run};
