//! The modes of an output: its sizes in pixels and how its picture is turned.
#![tactic(auto)]

mod laws;
mod modes;
mod turning;

pub use laws::turning_is_one_to_one;
pub use modes::{MAX_MODES, Mode, Modes, Rotation};
pub use turning::{turned_size, unturned};
