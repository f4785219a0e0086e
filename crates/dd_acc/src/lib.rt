//! The moves and the dirt of an interval, accumulated present by present.
#![tactic(auto)]

mod hidden;
mod interval;
mod laws;
mod lists;

pub use hidden::hide;
pub use interval::{Acc, MAX_MOVES};
pub use laws::{
    dirt_is_honest, hidden_follows, moves_and_dirt_rebuild, none_hidden, presents_compose,
    touched_composes,
};
pub use lists::{FrameMoves, FrameRects};
