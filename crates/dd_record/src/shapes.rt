//! The shape behind a frame's pixels.

ghost use Rattle.std.specs.Prelude.{◌≡◌, ◌≤◌, ◌^◌};
ghost use Rattle.dd_pointer.specs.Shape.{reading};
ghost use Rattle.dd_record.specs.Answers.{Gives};
ghost use Rattle.dd_record.specs.Grammar.{has_bytes, shape_head, shape_head_at, or_bad, shape_at, new_shape_of};

use crate::fault::Stop;
use crate::fields::{come, kept};
use crate::layout::SHAPE_HEAD_BYTES;
use byteorder::{ByteOrder, LittleEndian};
use dd_geom::Point;
use dd_pointer::{Kind, Shape, ShapeFault};
use std::alloc::Global;

/// The parts of a shape before its bytes.
#[derive(Clone, Copy, Debug)]
pub(crate) struct ShapeHead {
    pub kind: u32,
    pub width: u32,
    pub height: u32,
    pub hot: Point,
}

/// The parts that 20 bytes tell.
fn shape_head(field: &[u8; 20]) -> ShapeHead
    ensures { result ≡ shape_head field.now }
{
    let hot = Point {
        x: LittleEndian::read_i32(&field[12..]),
        y: LittleEndian::read_i32(&field[16..]),
    };
    ShapeHead {
        kind: LittleEndian::read_u32(field),
        width: LittleEndian::read_u32(&field[4..]),
        height: LittleEndian::read_u32(&field[8..]),
        hot,
    }
}

/// Whether a kind, if it is one, allows a size, and a shape of it has so many bytes.
fn has_bytes(kind: Option<Kind>, width: u32, height: u32, size: u32) -> bool
    ensures { result ≡ has_bytes kind width height size }
{
    match kind {
        None => false,
        Some(kind) => kind.allows_size(width, height) && kind.required(width, height) == size,
    }
}

/// The parts of a shape of so many bytes, at a place.
#[tactic(auto, unfolding(crate::specs::Grammar::shape_head_at))]
fn shape_head_at(size: u32, bytes: &[u8], at: usize) -> Result<ShapeHead, Stop>
    ensures { Gives result (shape_head_at size bytes.now at) }
{
    let field: [u8; 20] = come(bytes, at)?;
    let head = shape_head(&field);
    let allowed = has_bytes(Kind::of(head.kind), head.width, head.height, size);
    kept(at, allowed, head)
}

/// The shape of these parts and bytes, of the field at a place.
fn shape_of(alloc: Global, head: ShapeHead, field: &[u8], at: usize) -> Result<Shape, Stop>
    ensures { Gives result (or_bad at (reading head.kind head.width head.height head.hot field.now)) }
{
    match Shape::read(alloc, head.kind, head.width, head.height, head.hot, field) {
        Ok(shape) => Ok(shape),
        Err(ShapeFault::OutOfMemory) => Err(Stop::OutOfMemory),
        Err(_) => Err(Stop::Bad { at }),
    }
}

/// The shape of so many bytes, at a place.
#[tactic(auto, unfolding(crate::specs::Grammar::shape_at, crate::specs::Reading::come))]
fn shape_at(alloc: Global, size: u32, bytes: &[u8], at: usize) -> Result<Shape, Stop>
    requires { at ≤ 2 ^ 60 }
    ensures { Gives result (shape_at size bytes.now at) }
{
    let head = shape_head_at(size, bytes, at)?;
    let start = at + SHAPE_HEAD_BYTES;
    let end = start + size as usize;
    if bytes.len() < end {
        return Err(Stop::Short);
    }
    shape_of(alloc, head, &bytes[start..end], start)
}

/// The shape at a place, where its size isn't 0.
#[tactic(auto, unfolding(crate::specs::Grammar::new_shape_of))]
pub(crate) fn new_shape_of(
    alloc: Global,
    size: u32,
    bytes: &[u8],
    at: usize,
) -> Result<Option<Shape>, Stop>
    requires { at ≤ 2 ^ 60 }
    ensures { Gives result (new_shape_of size bytes.now at) }
{
    if size == 0 {
        return Ok(None);
    }
    let shape = shape_at(alloc, size, bytes, at)?;
    Ok(Some(shape))
}
