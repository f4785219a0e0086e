//! The steps of a script.

ghost use Rattle.std.specs.Prelude.{◌≡◌};

use dd_log::{Apps, Draw, Spec};
use std::marker::Model;

/// The most clients of an output.
pub const MAX_CLIENTS: usize = 16;

/// What a client calls. Each byte of a buffer is 238 before the call.
#[derive(Clone, Copy, Debug, PartialEq, Eq)]
pub enum ClientCall {
    /// Opens a duplicator (the API's DuplicateOutput).
    Duplicate,
    /// Gives its duplicator up, held frame or not.
    Close,
    /// Acquires a frame (AcquireNextFrame). In one list of steps a timeout isn't looked at.
    Acquire { timeout: u32 },
    /// Releases the frame (ReleaseFrame).
    Release,
    /// Asks for the held frame's moves in a buffer of this many bytes (GetFrameMoveRects).
    Moves { buffer: u32 },
    /// Asks for the held frame's dirty rectangles in a buffer of this many bytes
    /// (GetFrameDirtyRects).
    Dirty { buffer: u32 },
    /// Asks for the held frame's new shape in a buffer of this many bytes (GetFramePointerShape).
    Shape { buffer: u32 },
    /// Asks for the rows of the acquired surface.
    Surface,
    /// Asks for the mode in which the duplicator was opened (GetDesc).
    Desc,
}

/// One step.
#[derive(Debug, Drop)]
pub enum Step {
    /// A drawing.
    Draw(Draw),
    /// A call of a client, numbered from 1.
    Call { client: u32, call: ClientCall },
}

/// A list of steps.
#[derive(Debug, Drop)]
pub struct Steps {
    items: Vec<Step>,
}

impl Model for Steps {
    ghost use Rattle.std.specs.Prelude.{List};
    ghost use Rattle.dd_calls.specs.declared.steps.Step.{Step};

    ghost Value = { List Step };

    ghost view = { λ s. s.items.items };
}

impl Steps {
    /// The steps of a vector, in its order and on its memory.
    pub fn from_vec(items: Vec<Step>) -> Steps
        ensures { result ≡ items.items }
    {
        Steps { items }
    }

    /// The vector itself.
    pub fn into_vec(self) -> Vec<Step>
        ensures { result.items ≡ self }
    {
        let Steps { items } = self;
        items
    }

    pub fn as_slice(&self) -> &[Step]
        ensures { result.now ≡ self.now }
    {
        self.items.as_slice()
    }
}

/// What an output is begun with, its clients and their steps.
#[derive(Debug, Drop)]
pub struct Script {
    pub spec: Spec,
    /// Client k, from 1, has the k-th application.
    pub clients: Apps,
    pub steps: Steps,
}
