//! The one list of an output's events, and its desk.
#![tactic(auto)]

mod causes;
mod desk;
mod events;
mod laws;
mod lists;
mod log;
mod pointer;
mod refusal;

pub use desk::{Desk, MAX_DUPLICATORS};
pub use events::{Draw, Entry, Event, MAX_ACTORS, MAX_CAPACITY, MAX_PRIVILEGED, Spec};
pub use laws::{
    before_end_counts, beginning_is_legal, end_is_last, legal_by_entries, legal_has_room,
    legal_is_shown, picture_begins, picture_goes_on, picture_since_start, veil_is_legal,
    veil_refuses, veil_shows,
};
pub use lists::Apps;
pub use log::Log;
pub use pointer::Pointer;
pub use refusal::LogRefusal;
