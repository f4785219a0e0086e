//! Pictures of plain and hidden cells, and surfaces of visible colours.
#![tactic(auto)]

mod cell;
mod drawing;
mod laws;
mod picture;
mod surface;

pub use cell::COLOURS;
pub use laws::{seen_commutes, seen_is_surface};
pub use picture::Picture;
pub use surface::Surface;
