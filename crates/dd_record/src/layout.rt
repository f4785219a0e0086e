//! How many bytes the parts of a record have.

/// An End chunk is its tag.
pub(crate) const END_BYTES: usize = 1;

/// An opening chunk: its tag and three numbers of four bytes.
pub(crate) const OPENING_BYTES: usize = 13;

/// A frame chunk before its moves.
pub(crate) const FRAME_HEAD_BYTES: usize = 42;

/// A pixel: blue, green, red, and 255.
pub(crate) const PIXEL_BYTES: usize = 4;

/// A shape before its bytes.
pub(crate) const SHAPE_HEAD_BYTES: usize = 20;
