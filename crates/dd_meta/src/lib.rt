//! A frame's moves, dirty rectangles and shape bytes, put into a caller's buffer.
#![tactic(auto)]

mod buffer;
mod laws;

pub use buffer::{MAX_METADATA, MOVES_BUFFER, RECTS_BUFFER, put_bytes, put_moves, put_rects};
pub use laws::{metadata_is_short, moves_fit, rects_fit};
