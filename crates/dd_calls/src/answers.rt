//! The plain types of answers.

ghost use Rattle.std.specs.Prelude.{◌≡◌};
ghost use Rattle.dd_calls.specs.declared.answers.DupRefusal.TheVariants.{OutOfMemory};

use crate::rows::Rows;
use dd_geom::{Moves, Rects};
use dd_io::Bytes;
use dd_log::{LogRefusal, Pointer};
use dd_modes::Mode;
use dd_pointer::ShapeInfo;
use std::alloc::AllocError;
use thiserror::Error;

/// What is told of an acquired frame (the API's DXGI_OUTDUPL_FRAME_INFO).
#[derive(Clone, Copy, Debug, PartialEq, Eq)]
pub struct FrameInfo {
    /// The event number, from 1, of the interval's last present, else 0 (LastPresentTime).
    pub last_present: u64,
    /// The event number of the last pointer or shape, else 0 (LastMouseUpdateTime).
    pub last_mouse: u64,
    /// The number of presents since the frame before (AccumulatedFrames).
    pub accumulated: u32,
    /// Whether the dirty rectangles were rounded (RectsCoalesced).
    pub coalesced: bool,
    /// Whether some point of the desktop is hidden (ProtectedContentMaskedOut).
    pub protected: bool,
    pub pointer: Pointer,
    /// The bytes of the moves and the dirty rectangles together (TotalMetadataBufferSize).
    pub meta_size: u32,
    /// The bytes of the new shape, else 0 (PointerShapeBufferSize).
    pub shape_size: u32,
}

/// What an actor of an output does.
#[derive(Clone, Copy, Debug, PartialEq, Eq)]
pub enum Role {
    /// It draws.
    Drawer,
    /// It duplicates, for an application.
    Client { app: u32 },
}

/// Why a duplicator wasn't opened.
#[derive(Clone, Copy, Debug, PartialEq, Eq, Error)]
pub enum OpenRefusal {
    /// The session is disconnected, or the list has ended.
    #[error("the session is disconnected")]
    SessionDisconnected,
    /// The desktop is secure, and the application isn't privileged.
    #[error("the desktop is secure")]
    AccessDenied,
    #[error("the application already duplicates the output")]
    AlreadyDuplicating,
    #[error("four duplicators are open")]
    NotAvailable,
    #[error("the list is full")]
    Full,
}

/// Why a duplicator wasn't closed.
#[derive(Clone, Copy, Debug, PartialEq, Eq, Error)]
pub enum CloseRefusal {
    #[error("the client has no duplicator")]
    NoDuplicator,
    #[error("the list has ended")]
    Ended,
    #[error("the list is full")]
    Full,
}

/// Why a duplicator refused a call.
#[derive(Clone, Copy, Debug, PartialEq, Eq, Error)]
pub enum DupRefusal {
    /// The mode changed, the desktop was switched, or the session was disconnected: the duplicator is
    /// lost for good.
    #[error("the duplicator is lost")]
    AccessLost,
    /// A frame is held where there may be none, or none where there must be one.
    #[error("the call doesn't fit the duplicator's state")]
    InvalidCall,
    /// Nothing is new.
    #[error("nothing is new")]
    WaitTimeout,
    /// The buffer is shorter than the bytes that this part of the frame has.
    #[error("the buffer has to have {required} bytes")]
    MoreData { required: u32 },
    #[error("out of memory")]
    OutOfMemory,
}

impl From<AllocError> for DupRefusal {
    ghost from_gives = { λ _ refusal. refusal ≡ OutOfMemory };

    fn from(_e: AllocError) -> DupRefusal {
        DupRefusal::OutOfMemory
    }
}

/// The answer to one step.
#[derive(Debug, Drop)]
pub enum Answer {
    /// The drawing is the entry of this event number, from 1.
    Entered {
        entry: u64,
    },
    NotDrawn(LogRefusal),
    /// The duplicator's opening is the entry of this event number, and it has this slot, 0 to 3.
    Opened {
        entry: u64,
        slot: u32,
    },
    NotOpened(OpenRefusal),
    /// The duplicator's closing is the entry of this event number.
    Closed {
        entry: u64,
    },
    NotClosed(CloseRefusal),
    Frame {
        info: FrameInfo,
        moves: Moves,
        dirt: Rects,
    },
    Released,
    /// The rows of the acquired surface; none where no frame is held.
    Surface(Option<Rows>),
    /// The mode in which the duplicator was opened.
    Desc(Mode),
    /// The whole buffer that was given for the frame's moves or its dirty rectangles, and how many
    /// of its bytes, from the front, are theirs.
    Buffer {
        size: u32,
        bytes: Bytes,
    },
    /// The whole buffer that was given for the frame's new shape, how many of its bytes, from the
    /// front, are the shape's, and what is told of it; none where there is no new shape.
    ShapeBuffer {
        size: u32,
        bytes: Bytes,
        shape: Option<ShapeInfo>,
    },
    Refused {
        refusal: DupRefusal,
        /// The whole buffer of a call that was given one.
        buffer: Option<Bytes>,
    },
    /// The client has no duplicator.
    NoDuplicator,
}
