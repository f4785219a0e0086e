//! A list of applications, which contracts see as a list.

ghost use Rattle.std.specs.Prelude.{◌≡◌, ◌==◌, IfOk};
ghost use Rattle.std.specs.List.{list_any};

use std::alloc::AllocError;
use std::marker::Model;

/// A list of applications, each told by a number.
#[derive(Debug, Drop)]
pub struct Apps {
    items: Vec<u32>,
}

impl Model for Apps {
    ghost use Rattle.std.specs.Prelude.{List, ℕ};

    ghost Value = { List ℕ };

    ghost view = { λ a. a.items.items };
}

impl Apps {
    /// The applications of a vector, in its order and on its memory.
    pub fn from_vec(items: Vec<u32>) -> Apps
        ensures { result ≡ items.items }
    {
        Apps { items }
    }

    /// Whether an application is among them.
    pub fn contains(&self, app: u32) -> bool
        ensures { result ≡ list_any (λ other. other == app) self.now }
    {
        self.items.iter().any(|other| *other == app)
    }

    /// An equal list, on memory of its own.
    pub fn copy(&self) -> Result<Apps, AllocError>
        ensures { IfOk result (λ apps. apps ≡ self.now) }
    {
        let items = Vec::from_slice(*self.items.allocator(), self.as_slice())?;
        Ok(Apps { items })
    }

    pub fn as_slice(&self) -> &[u32]
        ensures { result.now ≡ self.now }
    {
        self.items.as_slice()
    }
}
