//! A shape drawn on a surface, row by row.

ghost use Rattle.std.specs.Prelude.{◌≡◌, ℕ, ◌+◌, ◌-◌, ◌*◌, ◌/◌, ◌<◌, ◌≤◌, length, slice_index_or, min, pos, ◌≤ℤ◌, ◌-ℤ◌, IsTrue};
ghost use Rattle.dd_geom.specs.Rect.{place};
ghost use Rattle.dd_geom.specs.Grid.{SameSize};
ghost use Rattle.dd_grid.specs.declared.cell.TheConstants.{COLOURS};
ghost use Rattle.dd_grid.specs.Drawing.{IsSurface, colour_at, with_colour};
ghost use Rattle.dd_pointer.specs.Shape.{pitch};
ghost use Rattle.dd_pointer.specs.Compositing.{mask_bit, pixel_byte, rows_covered, composited, composed};
ghost use Rattle.dd_pointer.specs.Cutting.{spanned, IsCut, drawn_at, row_composed};

use crate::kind::Kind;
use crate::pixel::{color, masked_color, monochrome};
use crate::shape::Shape;
use dd_geom::Point;
use dd_grid::Surface;

/// A bit of a mask; the rows of the XOR mask follow those of the AND mask.
fn mask_bit(shape: &Shape, x: usize, y: usize) -> bool
    requires { y * pitch shape.now.kind shape.now.width + x / 8 < length shape.now.bytes }
    ensures { result ≡ mask_bit shape.now x y }
{
    let byte = shape.bytes()[y * shape.pitch() + x / 8];
    byte >> (7 - x % 8) & 1 == 1
}

/// The four bytes of a pixel.
fn pixel(shape: &Shape, x: usize, y: usize) -> &[u8]
    requires { y * pitch shape.now.kind shape.now.width + 4 * x + 4 ≤ length shape.now.bytes }
    ensures long { length result.now ≡ 4 }
    ensures bytes { (n : ℕ) → n < 4 → slice_index_or result.now n 0 ≡ pixel_byte shape.now x y n }
{
    let bytes = shape.bytes();
    let start = y * shape.pitch() + 4 * x;
    &bytes[start..start + 4]
}

/// The colour that a shape makes, at a point inside it, of the screen's colour there.
#[tactic(auto, unfolding(crate::specs::Compositing::composited))]
fn composited(shape: &Shape, x: usize, y: usize, screen: u32) -> u32
    requires x { x < shape.now.width }
    requires y { y < rows_covered shape.now.kind shape.now.height }
    ensures value { result ≡ composited shape.now x y screen }
    ensures small { result < COLOURS }
{
    match shape.kind() {
        Kind::Monochrome => {
            let and = mask_bit(shape, x, y);
            let xor = mask_bit(shape, x, y + shape.rows() as usize);
            monochrome(and, xor, screen)
        }
        Kind::Color => color(pixel(shape, x, y), screen),
        Kind::MaskedColor => masked_color(pixel(shape, x, y), screen),
    }
}

/// Places of a row or a column: the first, and the one after the last.
#[derive(Clone, Copy, Debug)]
struct Span {
    from: u32,
    to: u32,
}

/// The place of a coordinate, where it is one of the first `length`; else the nearest end.
fn clamped(coordinate: i64, length: u32) -> u32
    ensures { result ≡ min (place coordinate) length }
{
    if coordinate <= 0 {
        0
    } else if coordinate >= i64::from(length) {
        length
    } else {
        coordinate as u32
    }
}

/// Those of the first `length` places that are among the `size` places from `start` on.
fn cut(start: i32, size: u32, length: u32) -> Span
    ensures { IsCut result start size length }
{
    let start = i64::from(start);
    Span {
        from: clamped(start, length),
        to: clamped(start + i64::from(size), length),
    }
}

/// The columns of the surface that a shape covers, its left side at `at.x`.
fn columns(s: &Surface, shape: &Shape, at: Point) -> Span
    ensures cut { IsCut result at.x shape.now.width s.now.width }
    ensures surface { IsSurface s.now }
{
    cut(at.x, shape.width(), s.width())
}

/// The rows of the surface that a shape covers, its top side at `at.y`.
fn rows(s: &Surface, shape: &Shape, at: Point) -> Span
    ensures cut { IsCut result at.y (rows_covered shape.now.kind shape.now.height) s.now.height }
    ensures surface { IsSurface s.now }
{
    cut(at.y, shape.rows(), s.height())
}

/// How far a place lies after `start`.
fn offset(k: u32, start: i32) -> usize
    requires { start ≤ℤ pos k }
    ensures { result ≡ place (pos k -ℤ start) }
{
    (i64::from(k) - i64::from(start)) as usize
}

/// The colour of a point.
fn colour_at(s: &Surface, x: u32, y: u32) -> u32
    requires x { x < s.now.width }
    requires y { y < s.now.height }
    ensures { result ≡ colour_at s.now x y }
{
    prove!(x < s.width());
    s.row(y)[x as usize]
}

/// Draws the pixel of a shape that lies at a point of the surface.
fn compose_point(s: &mut Surface, shape: &Shape, at: Point, x: u32, y: u32)
    requires x { x < s.old.width }
    requires y { y < s.old.height }
    requires column { IsTrue (spanned at.x shape.now.width (pos x)) }
    requires row { IsTrue (spanned at.y (rows_covered shape.now.kind shape.now.height) (pos y)) }
    ensures drawn { s.new ≡ with_colour s.old x y (drawn_at s.old shape.now at x y) }
    ensures size { SameSize s.old s.new }
{
    let screen = colour_at(s, x, y);
    let colour = composited(shape, offset(x, at.x), offset(y, at.y), screen);
    s.set(x, y, colour);
}

/// Draws what of a shape lies in one row of the surface.
fn compose_row(s: &mut Surface, shape: &Shape, at: Point, y: u32)
    requires y { y < s.old.height }
    requires row { IsTrue (spanned at.y (rows_covered shape.now.kind shape.now.height) (pos y)) }
    ensures drawn { s.new ≡ row_composed s.old shape.now at y }
    ensures size { SameSize s.old s.new }
{
    let span = columns(s, shape, at);
    for x in span.from..span.to {
        compose_point(s, shape, at, x, y);
    }
}

/// Draws the shape with its top left corner at `at`, cut at the surface. The hot spot places
/// nothing. It takes no memory.
pub fn compose(s: &mut Surface, shape: &Shape, at: Point)
    ensures drawn { s.new ≡ composed s.old shape.now at }
    ensures size { SameSize s.old s.new }
{
    let span = rows(s, shape, at);
    for y in span.from..span.to {
        compose_row(s, shape, at, y);
    }
}
