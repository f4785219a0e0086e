//! What an acquired frame tells.

ghost use Rattle.std.specs.Prelude.{◌≡◌, ◌+◌, ◌*◌, ◌≤◌, length};
ghost use Rattle.dd_geom.specs.Grid.{Grid};
ghost use Rattle.dd_grid.specs.Cell.{Cell};
ghost use Rattle.dd_grid.specs.Drawing.{any_hidden, hidden_points};
ghost use Rattle.dd_geom.specs.declared.rect.TheConstants.{RECT_BYTES, MOVE_BYTES};
ghost use Rattle.dd_coal.specs.declared.coalescing.TheConstants.{MAX_RECTS};
ghost use Rattle.dd_acc.specs.declared.interval.TheConstants.{MAX_MOVES};
ghost use Rattle.dd_meta.specs.declared.buffer.TheConstants.{MAX_METADATA};
ghost use Rattle.dd_dup.specs.News.{frame_from, shape_bytes};

use dd_acc::{FrameMoves, FrameRects};
use dd_bits::Area;
use dd_calls::FrameInfo;
use dd_geom::{MOVE_BYTES, Move, RECT_BYTES, Rect};
use dd_log::Pointer;
use dd_pointer::Shape;
use dd_region::Bands;

/// A set of hidden points.
pub type Hidden = Bands;

/// What is new of the picture since a duplicator's mark.
#[derive(Debug, Drop)]
pub struct PictureNews {
    /// The number of presents.
    pub accumulated: u32,
    /// The event number, from 1, of the last of them; 0 where there is none.
    pub last_present: u64,
    /// Whether the dirty points of some present had to be rounded.
    pub coalesced: bool,
    pub moves: FrameMoves,
    pub dirt: FrameRects,
    /// The points that are hidden after them.
    pub hidden: Hidden,
}

/// What is new of the pointer since a duplicator's pointer mark.
#[derive(Debug, Drop)]
pub struct PointerNews {
    /// The event number, from 1, of the last event that set the pointer or its shape; 0 where there
    /// is none.
    pub last_mouse: u64,
    /// The pointer now.
    pub pointer: Pointer,
    /// The last new shape, if there is one.
    pub shape: Option<Shape>,
}

/// What is new since a duplicator's marks.
#[derive(Debug, Drop)]
pub struct News {
    pub picture: PictureNews,
    pub pointer: PointerNews,
}

/// An acquired frame.
#[derive(Debug, Drop)]
pub struct Frame {
    pub info: FrameInfo,
    pub moves: FrameMoves,
    pub dirt: FrameRects,
    /// The pointer's new shape, if it has one.
    pub shape: Option<Shape>,
}

/// The bytes of the metadata of a frame with these moves and dirty rectangles.
fn metadata_of(moves: &[Move], dirt: &[Rect]) -> u32
    requires moves { length moves.now ≤ MAX_MOVES }
    requires dirt { length dirt.now ≤ MAX_RECTS }
    ensures size { result ≡ MOVE_BYTES * length moves.now + RECT_BYTES * length dirt.now }
    ensures short { result ≤ MAX_METADATA }
{
    MOVE_BYTES * moves.len() as u32 + RECT_BYTES * dirt.len() as u32
}

/// Whether some point is hidden.
fn some_hidden(hidden: &Hidden) -> bool
    ensures { (p : Grid Cell) → length p.cells ≡ p.width * p.height → hidden.now ≡ hidden_points p
        → result ≡ any_hidden p }
{
    !hidden.is_empty()
}

/// The number of bytes of a shape; 0 where there is none.
fn shape_size_of(shape: &Option<Shape>) -> u32
    ensures { result ≡ length (shape_bytes shape.now) }
{
    match shape {
        None => 0,
        Some(shape) => shape.bytes().len() as u32,
    }
}

/// The frame of what is new, and the points that are hidden after it.
pub(crate) fn frame_of(news: News) -> (Frame, Hidden)
    ensures frame { (p : Grid Cell) → length p.cells ≡ p.width * p.height → news.picture.hidden ≡ hidden_points p
        → result.0 ≡ frame_from news (any_hidden p) }
    ensures hidden { result.1 ≡ news.picture.hidden }
    ensures short { result.0.info.meta_size ≤ MAX_METADATA }
{
    let News { picture, pointer } = news;
    let info = FrameInfo {
        last_present: picture.last_present,
        last_mouse: pointer.last_mouse,
        accumulated: picture.accumulated,
        coalesced: picture.coalesced,
        protected: some_hidden(&picture.hidden),
        pointer: pointer.pointer,
        meta_size: metadata_of(picture.moves.as_slice(), picture.dirt.as_slice()),
        shape_size: shape_size_of(&pointer.shape),
    };
    let frame = Frame {
        info,
        moves: picture.moves,
        dirt: picture.dirt,
        shape: pointer.shape,
    };
    (frame, picture.hidden)
}
