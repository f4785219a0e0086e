//! Sets of points of a surface, and each as a list of rectangles.
#![tactic(auto)]

mod area;
mod commands;
mod laws;
mod plane;
mod runs;
mod tiling;

pub use area::Area;
pub use commands::{AreaCommand, AreaCommands, area_run};
pub use laws::{list_covers, list_has, list_inside, list_sorted, list_tells, tiles_nest};
pub use plane::Plane;
