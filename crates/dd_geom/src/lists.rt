//! Lists of rectangles and of moves, which contracts see as lists.

ghost use Rattle.std.specs.Prelude.{◌≡◌, length};

use crate::rect::{Move, Rect};
use std::marker::Model;

/// A list of rectangles.
#[derive(Debug, Drop)]
pub struct Rects {
    items: Vec<Rect>,
}

impl Model for Rects {
    ghost use Rattle.std.specs.Prelude.{List};
    ghost use Rattle.dd_geom.specs.declared.rect.Rect.{Rect};

    ghost Value = { List Rect };

    ghost view = { λ r. r.items.items };
}

impl Rects {
    /// The rectangles of a vector, in its order and on its memory.
    pub fn from_vec(items: Vec<Rect>) -> Rects
        ensures { result ≡ items.items }
    {
        Rects { items }
    }

    /// The vector itself.
    pub fn into_vec(self) -> Vec<Rect>
        ensures { result.items ≡ self }
    {
        let Rects { items } = self;
        items
    }

    pub fn as_slice(&self) -> &[Rect]
        ensures { result.now ≡ self.now }
    {
        self.items.as_slice()
    }
}

/// A list of moves.
#[derive(Debug, Drop)]
pub struct Moves {
    items: Vec<Move>,
}

impl Model for Moves {
    ghost use Rattle.std.specs.Prelude.{List};
    ghost use Rattle.dd_geom.specs.declared.rect.Move.{Move};

    ghost Value = { List Move };

    ghost view = { λ m. m.items.items };
}

impl Moves {
    /// The moves of a vector, in its order and on its memory.
    pub fn from_vec(items: Vec<Move>) -> Moves
        ensures { result ≡ items.items }
    {
        Moves { items }
    }

    /// The vector itself.
    pub fn into_vec(self) -> Vec<Move>
        ensures { result.items ≡ self }
    {
        let Moves { items } = self;
        items
    }

    pub fn as_slice(&self) -> &[Move]
        ensures { result.now ≡ self.now }
    {
        self.items.as_slice()
    }
}
