//! A shape, read from its parts.

ghost use Rattle.std.specs.Prelude.{◌≡◌, ◌<◌, ◌≤◌, length, IfOk, IfSome};
ghost use Rattle.dd_pointer.specs.Shape.{is_bad_mask, bad_mask, mask_fault, shape_fault};
ghost use Rattle.dd_pointer.specs.declared.kind.TheConstants.{MAX_BYTES};
ghost use Rattle.dd_pointer.specs.declared.shape.ShapeFault.TheVariants.{OutOfMemory};

use crate::kind::{Kind, MAX_WIDTH};
use dd_geom::Point;
use std::alloc::{AllocError, Global};
use std::marker::Model;
use thiserror::Error;

/// Why parts aren't a shape: the first of these that stands, or want of memory.
#[derive(Clone, Copy, Debug, PartialEq, Eq, Error)]
pub enum ShapeFault {
    /// The kind's number isn't 1, 2 or 4.
    #[error("the kind isn't 1, 2 or 4")]
    UnknownKind,
    /// The width isn't 1 to 256, or the height isn't 1 to 256, or, of a monochrome shape, isn't an
    /// even number from 2 to 512.
    #[error("a shape of this kind can't have this size")]
    BadSize,
    /// The bytes aren't as many as the pitch times the height.
    #[error("a shape of this size has {required} bytes")]
    BadLength { required: u32 },
    /// At this place, from 0, stands the first mask that is neither 0 nor 255.
    #[error("the mask at byte {at} is neither 0 nor 255")]
    BadMask { at: u32 },
    #[error("out of memory")]
    OutOfMemory,
}

impl From<AllocError> for ShapeFault {
    ghost from_gives = { λ _ fault. fault ≡ OutOfMemory };

    fn from(_e: AllocError) -> ShapeFault {
        ShapeFault::OutOfMemory
    }
}

/// What is told of a shape (the API's DXGI_OUTDUPL_POINTER_SHAPE_INFO).
#[derive(Clone, Copy, Debug, PartialEq, Eq)]
pub struct ShapeInfo {
    /// The API's number of the kind: 1, 2 or 4.
    pub kind: u32,
    /// The columns, 1 to 256.
    pub width: u32,
    /// The rows of the bytes: 1 to 256, or, of a monochrome shape, those of both masks, 2 to 512.
    pub height: u32,
    /// The bytes of a row.
    pub pitch: u32,
    /// The hot spot, from the shape's top left corner. It is carried, and places nothing.
    pub hot: Point,
}

/// A shape of the pointer: its size is one that its kind may have, and its bytes are as many as
/// that asks for; each mask of a masked colour is 0 or 255.
#[derive(Debug, Drop)]
pub struct Shape {
    kind: Kind,
    width: u32,
    height: u32,
    hot: Point,
    bytes: Vec<u8>,
}

impl Model for Shape {
    ghost use Rattle.dd_pointer.specs.Shape.{PointerShape, IsShape};

    ghost Value = { PointerShape };

    ghost view = { λ s. record {
      kind = s.kind;
      width = s.width;
      height = s.height;
      hot = s.hot;
      bytes = s.bytes.items;
    } };

    ghost invariant = { λ s. IsShape (record {
      kind = s.kind;
      width = s.width;
      height = s.height;
      hot = s.hot;
      bytes = s.bytes.items;
    }) };
}

/// Whether at this place stands a mask, the fourth byte of a pixel, that is neither 0 nor 255.
fn is_bad_mask(bytes: &[u8], k: usize) -> bool
    requires { k < length bytes.now }
    ensures { result ≡ is_bad_mask bytes.now k }
{
    k % 4 == 3 && bytes[k] != 0 && bytes[k] != 255
}

/// The place of the first bad mask, if there is one.
fn bad_mask(bytes: &[u8]) -> Option<usize>
    ensures value { result ≡ bad_mask bytes.now }
    ensures within { IfSome result (λ k. k < length bytes.now) }
{
    (0..bytes.len()).position(|k| is_bad_mask(bytes, k))
}

/// The fault of a kind's bytes, if there is one: only masked colours have masks.
fn mask_fault(kind: Kind, bytes: &[u8]) -> Option<ShapeFault>
    requires { length bytes.now ≤ MAX_BYTES }
    ensures { result ≡ mask_fault kind bytes.now }
{
    match kind {
        Kind::Monochrome | Kind::Color => None,
        Kind::MaskedColor => bad_mask(bytes).map(|k| ShapeFault::BadMask { at: k as u32 }),
    }
}

/// The first fault of these parts of a shape, if there is one.
#[tactic(auto, unfolding(crate::specs::Shape::shape_fault))]
fn shape_fault(kind: Kind, width: u32, height: u32, bytes: &[u8]) -> Option<ShapeFault>
    ensures { result ≡ shape_fault kind width height bytes.now }
{
    if !kind.allows_size(width, height) {
        return Some(ShapeFault::BadSize);
    }
    let required = kind.required(width, height);
    if bytes.len() != required as usize {
        return Some(ShapeFault::BadLength { required });
    }
    mask_fault(kind, bytes)
}

impl Shape {
    ghost use Rattle.dd_pointer.specs.Shape.{IsShape, reading, IsReading, info_of, pitch};
    ghost use Rattle.dd_pointer.specs.Compositing.{rows_covered};

    /// Reads a shape of the kind with this number, copying its bytes. The rows of `bytes` have
    /// `ceil(width / 8)` bytes for kind 1, and `4 * width` for kinds 2 and 4. The answer is the
    /// first fault that stands, in the order of `ShapeFault`, if one does.
    pub fn read(
        alloc: Global,
        kind: u32,
        width: u32,
        height: u32,
        hot: Point,
        bytes: &[u8],
    ) -> Result<Shape, ShapeFault>
        ensures { IsReading (reading kind width height hot bytes.now) result }
    {
        let kind = Kind::of(kind).ok_or(ShapeFault::UnknownKind)?;
        if let Some(fault) = shape_fault(kind, width, height, bytes) {
            return Err(fault);
        }
        let bytes = Vec::from_slice(alloc, bytes)?;
        Ok(Shape {
            kind,
            width,
            height,
            hot,
            bytes,
        })
    }

    /// The kind, the size and the hot spot.
    pub fn info(&self) -> ShapeInfo
        ensures { result ≡ info_of self.now }
    {
        ShapeInfo {
            kind: self.kind.number(),
            width: self.width,
            height: self.height,
            pitch: self.kind.pitch(self.width),
            hot: self.hot,
        }
    }

    pub(crate) fn kind(&self) -> Kind
        ensures kind { result ≡ self.now.kind }
        ensures shape { IsShape self.now }
    {
        self.kind
    }

    pub(crate) fn width(&self) -> u32
        ensures { result ≡ self.now.width }
    {
        self.width
    }

    /// The bytes of a row.
    pub(crate) fn pitch(&self) -> usize
        ensures { result ≡ pitch self.now.kind self.now.width }
    {
        self.kind.pitch(self.width) as usize
    }

    /// The rows of the surface that it covers.
    pub(crate) fn rows(&self) -> u32
        ensures { result ≡ rows_covered self.now.kind self.now.height }
    {
        self.kind.rows_covered(self.height)
    }

    /// The bytes, row by row.
    pub fn bytes(&self) -> &[u8]
        ensures value { result.now ≡ self.now.bytes }
        ensures shape { IsShape self.now }
        ensures few { length result.now ≤ MAX_BYTES }
    {
        self.bytes.as_slice()
    }

    /// An equal shape, on memory of its own.
    pub fn copy(&self) -> Result<Shape, AllocError>
        ensures { IfOk result (λ s. s ≡ self.now) }
    {
        let bytes = Vec::from_slice(*self.bytes.allocator(), self.bytes.as_slice())?;
        Ok(Shape {
            kind: self.kind,
            width: self.width,
            height: self.height,
            hot: self.hot,
            bytes,
        })
    }
}
