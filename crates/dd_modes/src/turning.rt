//! How a picture is turned for its viewer, clockwise; surfaces and rectangles are never turned.

ghost use Rattle.std.specs.Prelude.{◌≡◌, ◌<◌};
ghost use Rattle.dd_modes.specs.Turning.{turned_width, turned_height, surface_point, IsInTurned};

use crate::{Mode, Rotation};

/// The width and the height of the turned picture, in pixels.
pub fn turned_size(m: Mode) -> (u32, u32)
    ensures width { result.0 ≡ turned_width m }
    ensures height { result.1 ≡ turned_height m }
{
    match m.rotation {
        Rotation::Rotate90 | Rotation::Rotate270 => (m.height, m.width),
        Rotation::Unspecified | Rotation::Identity | Rotation::Rotate180 => (m.width, m.height),
    }
}

/// The column and the row of the point of the surface that stands at (x, y) of the turned picture.
pub fn unturned(m: Mode, x: u32, y: u32) -> (u32, u32)
    requires { IsInTurned m x y }
    ensures point { result ≡ surface_point m x y }
    ensures column { result.0 < m.width }
    ensures row { result.1 < m.height }
{
    let (w, h) = (m.width, m.height);
    match m.rotation {
        Rotation::Unspecified | Rotation::Identity => (x, y),
        Rotation::Rotate90 => (y, h - 1 - x),
        Rotation::Rotate180 => (w - 1 - x, h - 1 - y),
        Rotation::Rotate270 => (w - 1 - y, x),
    }
}
