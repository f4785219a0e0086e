//! What holds of whole records and of made scripts: laws, with nothing to run.
#![tactic(auto)]

mod made_scripts;
mod records;

pub use made_scripts::{made_scripts_are_granted, made_scripts_are_readable};
pub use records::{records_are_read, records_are_viewed, records_play_back, records_show_frames};
