//! Points, rectangles and moves of a surface, their bytes, and what is painted inside a rectangle.
#![tactic(auto)]

mod bytes;
mod lists;
mod painting;
mod rect;
mod scrolling;

pub use bytes::{
    move_bytes, move_is_read, move_is_written, move_of, rect_bytes, rect_is_read, rect_is_written,
    rect_of,
};
pub use lists::{Moves, Rects};
pub use painting::paint;
pub use rect::{
    MAX_PIXELS, MAX_SIDE, MOVE_BYTES, Move, Point, RECT_BYTES, Rect, Sides, contains,
    has_is_covers, intersect, move_inside, point_count, rect_inside, shift, sides_of,
};
pub use scrolling::scroll;
