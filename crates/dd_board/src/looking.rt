//! A look of a client: what it asks, and what it is answered.

ghost use Rattle.std.specs.Prelude.{◌≡◌, Option};
ghost use Rattle.dd_calls.specs.declared.answers.FrameInfo.{FrameInfo};
ghost use Rattle.dd_dup.specs.News.{held_info};
ghost use Rattle.dd_dup.specs.Stands.{Stands};
ghost use Rattle.dd_board.specs.Asking.{frame_answer, look_answer};
ghost use Rattle.dd_board.specs.Looking.{release_look, buffer_look, IsAcquired, IsReply};

use dd_calls::{DupRefusal, FrameInfo};
use dd_dup::Dup;
use dd_log::Log;

/// What a client asks its duplicator.
#[derive(Clone, Copy, Debug, PartialEq, Eq)]
pub enum Call {
    /// Acquires a frame (AcquireNextFrame).
    Acquire,
    /// Releases the frame (ReleaseFrame).
    Release,
    /// Puts the held frame's moves into the buffer (GetFrameMoveRects).
    Moves,
    /// Puts the held frame's dirty rectangles into the buffer (GetFrameDirtyRects).
    Dirty,
    /// Puts the held frame's new shape into the buffer (GetFramePointerShape).
    Shape,
}

/// What it is answered.
#[derive(Clone, Copy, Debug, PartialEq, Eq)]
pub enum LookAnswer {
    Frame(FrameInfo),
    Released,
    /// So many bytes stand at the buffer's front.
    Size(u32),
    Refused(DupRefusal),
    /// The client has none.
    NoDuplicator,
    /// The board didn't let the look in, and nothing changed.
    NotEntered,
}

/// A look's answer, and the number of entries of the list that it saw.
#[derive(Clone, Copy, Debug, PartialEq, Eq)]
pub struct Looked {
    pub place: u64,
    pub answer: LookAnswer,
}

/// What a duplicator answered, in few bytes: the info of an acquired frame stays with the frame.
#[derive(Clone, Copy, Debug, PartialEq, Eq)]
pub(crate) enum Asked {
    /// The answer is the info of the frame that the duplicator now holds.
    Acquired,
    Released,
    /// So many bytes stand at the buffer's front.
    Size(u32),
    Refused(DupRefusal),
    /// The client has none.
    NoDuplicator,
}

/// What is told of the held frame as a look's answer. After an acquire that gave a frame there is one.
pub(crate) fn frame_of(info: Option<FrameInfo>) -> LookAnswer
    ensures { result ≡ frame_answer info }
{
    match info {
        None => LookAnswer::NoDuplicator,
        Some(info) => LookAnswer::Frame(info),
    }
}

/// A release as an answer.
fn release_of(released: Result<(), DupRefusal>) -> Asked
    ensures { (info : Option FrameInfo) → look_answer result info ≡ release_look released }
{
    match released {
        Ok(()) => Asked::Released,
        Err(cause) => Asked::Refused(cause),
    }
}

/// What was put into a buffer as an answer.
fn buffer_of(size: Result<u32, DupRefusal>) -> Asked
    ensures { (info : Option FrameInfo) → look_answer result info ≡ buffer_look size }
{
    match size {
        Ok(size) => Asked::Size(size),
        Err(cause) => Asked::Refused(cause),
    }
}

/// An acquire.
fn acquire(dup: &mut Dup, log: &Log) -> Asked
    requires { Stands dup.old log.now }
    ensures answer { IsAcquired (look_answer result (held_info dup.new.memory.held))
        dup.old.memory dup.new.memory log.now }
    ensures stands { Stands dup.new log.now }
{
    match dup.acquire(log) {
        Ok(_info) => Asked::Acquired,
        Err(cause) => Asked::Refused(cause),
    }
}

/// Asks a duplicator.
pub(crate) fn ask(dup: &mut Dup, log: &Log, call: Call, buffer: &mut [u8]) -> Asked
    requires { Stands dup.old log.now }
    ensures answer { IsReply (look_answer result (held_info dup.new.memory.held)) call
        dup.old.memory dup.new.memory log.now buffer.old buffer.new }
    ensures place { dup.new.memory.opened ≡ dup.old.memory.opened }
    ensures stands { Stands dup.new log.now }
{
    match call {
        Call::Acquire => acquire(dup, log),
        Call::Release => release_of(dup.release(log)),
        Call::Moves => buffer_of(dup.moves(log, buffer)),
        Call::Dirty => buffer_of(dup.dirty(log, buffer)),
        Call::Shape => buffer_of(dup.shape(log, buffer)),
    }
}
