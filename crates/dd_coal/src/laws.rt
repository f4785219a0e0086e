//! What the least power says of a set, and of the set that is rounded by it.

ghost use Rattle.dd_coal.specs.Power.{LeastPower, KeepsPoints, StaysNear};

/// The power is the least at which the list is short enough, and it is at most 13.
pub fn least_power()
    ensures { LeastPower }
{}

/// Rounding takes no point out.
pub fn rounding_keeps_points()
    ensures { KeepsPoints }
{}

/// Each point of the rounded set is nearer than 2^power, across and down, to a point of the set.
pub fn rounding_is_near()
    ensures { StaysNear }
{}
