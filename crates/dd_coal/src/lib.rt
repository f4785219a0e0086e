//! The bound on the rectangles of a set's list: the least rounding that keeps it.
#![tactic(auto)]

mod coalescing;
mod laws;

pub use coalescing::{Coalesced, MAX_POWER, MAX_RECTS, coalesce};
pub use laws::{least_power, rounding_is_near, rounding_keeps_points};
