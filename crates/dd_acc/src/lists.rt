//! The lists of a frame, in the frame itself: they take no memory. Contracts see them as lists.

ghost use Rattle.std.specs.Prelude.{◌≡◌, ◌≤◌, ◌<◌, ◌++◌, ◌∷◌, [], length};
ghost use Rattle.dd_acc.specs.declared.interval.TheConstants.{MAX_MOVES};
ghost use Rattle.dd_coal.specs.declared.coalescing.TheConstants.{MAX_RECTS};

use crate::interval::MAX_MOVES;
use arrayvec::ArrayVec;
use dd_coal::MAX_RECTS;
use dd_geom::{Move, Rect};
use std::marker::Model;

/// The moves of a frame: at most 16.
#[derive(Debug, Drop)]
pub struct FrameMoves {
    items: ArrayVec<Move, MAX_MOVES>,
}

impl Model for FrameMoves {
    ghost use Rattle.std.specs.Prelude.{List};
    ghost use Rattle.dd_geom.specs.declared.rect.Move.{Move};

    ghost Value = { List Move };

    ghost view = { λ m. m.items.items };
}

impl FrameMoves {
    /// No moves.
    pub(crate) fn new() -> FrameMoves
        ensures { result ≡ [] }
    {
        FrameMoves {
            items: ArrayVec::new(),
        }
    }

    /// Adds a move at the end. There has to be room.
    pub(crate) fn push(&mut self, mv: Move)
        requires { length self.old < MAX_MOVES }
        ensures { self.new ≡ self.old ++ mv ∷ [] }
    {
        self.items.push(mv);
    }

    pub fn as_slice(&self) -> &[Move]
        ensures value { result.now ≡ self.now }
        ensures few { length self.now ≤ MAX_MOVES }
    {
        self.items.as_slice()
    }
}

/// The dirty rectangles of a frame: at most 64.
#[derive(Debug, Drop)]
pub struct FrameRects {
    items: ArrayVec<Rect, MAX_RECTS>,
}

impl Model for FrameRects {
    ghost use Rattle.std.specs.Prelude.{List};
    ghost use Rattle.dd_geom.specs.declared.rect.Rect.{Rect};

    ghost Value = { List Rect };

    ghost view = { λ r. r.items.items };
}

impl FrameRects {
    /// No rectangles.
    pub(crate) fn new() -> FrameRects
        ensures { result ≡ [] }
    {
        FrameRects {
            items: ArrayVec::new(),
        }
    }

    /// The rectangles of a slice, in its order.
    pub(crate) fn from_slice(rects: &[Rect]) -> FrameRects
        requires { length rects.now ≤ MAX_RECTS }
        ensures { result ≡ rects.now }
    {
        let mut items = ArrayVec::new();
        for rect in rects {
            items.push(*rect);
        }
        FrameRects { items }
    }

    pub fn as_slice(&self) -> &[Rect]
        ensures value { result.now ≡ self.now }
        ensures few { length self.now ≤ MAX_RECTS }
    {
        self.items.as_slice()
    }
}
