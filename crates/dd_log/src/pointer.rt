//! The pointer.

use dd_geom::Point;

/// Where the pointer is, and whether it is shown.
#[derive(Clone, Copy, Debug, PartialEq, Eq)]
pub struct Pointer {
    pub position: Point,
    pub visible: bool,
}
