//! Pointer shapes: which bytes are one, and how it is drawn on a surface.
#![tactic(auto)]

mod compositing;
mod kind;
mod laws;
mod pixel;
mod shape;

pub use compositing::compose;
pub use kind::{Kind, MAX_BYTES, MAX_HEIGHT, MAX_MASK_HEIGHT, MAX_WIDTH};
pub use laws::{blended_is_nearest, shape_is_read};
pub use shape::{Shape, ShapeFault, ShapeInfo};
