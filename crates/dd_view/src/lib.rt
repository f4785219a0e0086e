//! A viewer of records: it plays the chunks of a record on a surface.
#![tactic(auto)]

mod laws;
mod pending;
mod picture_text;
mod played;
mod player;
mod screen;
mod stage;

pub use laws::{feeding_is_reading, reads_records};
pub use picture_text::ppm;
pub use player::Player;
