//! Sets of points of a surface as bands of equal rows.
#![tactic(auto)]

mod bands;
mod carry;
mod listing;
mod rows;
mod run;
mod sweep;
mod tiling;

pub use bands::Bands;
