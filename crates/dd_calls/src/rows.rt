//! The rows of a surface, which contracts see as a list.

ghost use Rattle.std.specs.Prelude.{◌≡◌};

use dd_ops::Colours;
use std::marker::Model;

/// The rows of a surface, from the top, each a list of colours from the left.
#[derive(Debug, Drop)]
pub struct Rows {
    items: Vec<Colours>,
}

impl Model for Rows {
    ghost use Rattle.std.specs.Prelude.{List, ℕ};

    ghost Value = { List (List ℕ) };

    ghost view = { λ r. r.items.items };
}

impl Rows {
    /// The rows of a vector, in its order and on its memory.
    pub fn from_vec(items: Vec<Colours>) -> Rows
        ensures { result ≡ items.items }
    {
        Rows { items }
    }

    /// The vector itself.
    pub fn into_vec(self) -> Vec<Colours>
        ensures { result.items ≡ self }
    {
        let Rows { items } = self;
        items
    }

    pub fn as_slice(&self) -> &[Colours]
        ensures { result.now ≡ self.now }
    {
        self.items.as_slice()
    }
}
