//! Rectangles and moves as bytes: 32-bit little-endian fields, in the API's order.

ghost use Rattle.std.specs.Prelude.{◌≡◌, ◌≤◌, ◌+◌, length};
ghost use Rattle.dd_geom.specs.Bytes.{rect_bytes, move_bytes, coordinate_at, point_of, rect_of, move_of};
ghost use Rattle.dd_geom.specs.Bytes.{RectIsRead, RectIsWritten, MoveIsRead, MoveIsWritten};

use crate::rect::{Move, Point, Rect};
use byteorder::{ByteOrder, LittleEndian};

/// The 16 bytes of a rectangle: left, top, right and bottom, four bytes each (the API's RECT).
#[tactic(auto, unfolding(crate::specs::Bytes::rect_bytes))]
pub fn rect_bytes(r: Rect) -> [u8; 16]
    ensures { result ≡ rect_bytes r }
{
    let mut bytes = [0; 16];
    LittleEndian::write_i32_into(&[r.left, r.top, r.right, r.bottom], &mut bytes);
    bytes
}

/// The 24 bytes of a move: the x and y of its source, then the left, top, right and bottom of its
/// destination, four bytes each (the API's DXGI_OUTDUPL_MOVE_RECT).
#[tactic(auto, unfolding(crate::specs::Bytes::move_bytes, crate::specs::Bytes::rect_bytes))]
pub fn move_bytes(m: Move) -> [u8; 24]
    ensures { result ≡ move_bytes m }
{
    let Move { source, dest } = m;
    let fields = [
        source.x,
        source.y,
        dest.left,
        dest.top,
        dest.right,
        dest.bottom,
    ];
    let mut bytes = [0; 24];
    LittleEndian::write_i32_into(&fields, &mut bytes);
    bytes
}

/// The coordinate whose bytes begin at a place.
fn coordinate(bytes: &[u8], at: usize) -> i32
    requires { at + 4 ≤ length bytes.now }
    ensures { result ≡ coordinate_at bytes.now at }
{
    LittleEndian::read_i32(&bytes[at..])
}

/// The point that bytes begin with.
fn read_point(bytes: &[u8]) -> Point
    requires { 8 ≤ length bytes.now }
    ensures { result ≡ point_of bytes.now }
{
    Point {
        x: coordinate(bytes, 0),
        y: coordinate(bytes, 4),
    }
}

/// The rectangle that bytes begin with.
#[tactic(auto, unfolding(crate::specs::Bytes::rect_of))]
fn read_rect(bytes: &[u8]) -> Rect
    requires { 16 ≤ length bytes.now }
    ensures { result ≡ rect_of bytes.now }
{
    Rect {
        left: coordinate(bytes, 0),
        top: coordinate(bytes, 4),
        right: coordinate(bytes, 8),
        bottom: coordinate(bytes, 12),
    }
}

/// The rectangle whose bytes these are; any 16 bytes are one's.
pub fn rect_of(bytes: &[u8; 16]) -> Rect
    ensures { result ≡ rect_of bytes.now }
{
    read_rect(bytes)
}

/// The move whose bytes these are; any 24 bytes are one's.
#[tactic(auto, unfolding(crate::specs::Bytes::move_of))]
pub fn move_of(bytes: &[u8; 24]) -> Move
    ensures { result ≡ move_of bytes.now }
{
    Move {
        source: read_point(bytes),
        dest: read_rect(&bytes[8..]),
    }
}

/// The bytes of a rectangle, read, are the rectangle.
pub fn rect_is_read()
    ensures { RectIsRead }
{}

/// 16 bytes are those of the rectangle that they are.
pub fn rect_is_written()
    ensures { RectIsWritten }
{}

/// The bytes of a move, read, are the move.
pub fn move_is_read()
    ensures { MoveIsRead }
{}

/// 24 bytes are those of the move that they are.
pub fn move_is_written()
    ensures { MoveIsWritten }
{}
