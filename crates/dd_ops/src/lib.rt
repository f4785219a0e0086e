//! The drawing operations of a present, the list of them, and what they draw.
#![tactic(auto)]

mod laws;
mod lists;
mod operations;

pub use dd_grid::COLOURS;
pub use laws::{
    drawn_is_picture, seen_follows, veil_fits, veil_hides, veil_is_hidden, veil_is_seen, veil_unfit,
};
pub use lists::{Colours, MAX_OPS, Ops, OpsFault};
pub use operations::{Op, apply, apply_seen, fits};
