//! One list of steps, of drawing actors and of clients, and its run.
#![tactic(auto)]

mod calls;
mod closing;
mod counting;
mod opening;
mod station;

pub use counting::count_steps;
pub use dd_calls::{Answer, ClientCall, Counts, MAX_CLIENTS, Script, Step, Steps};
pub use station::Station;
