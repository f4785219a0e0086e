//! Calls about the held frame, and a call as data.

ghost use Rattle.std.specs.Prelude.{◌≡◌, ◌≤◌, IsTrue, IfOk, OnOk, OnErr, length};
ghost use Rattle.dd_pointer.specs.declared.kind.TheConstants.{MAX_BYTES};
ghost use Rattle.dd_meta.specs.declared.buffer.TheConstants.{MOVES_BUFFER, RECTS_BUFFER};
ghost use Rattle.dd_dup.specs.Reply.{put_answer};

use super::Dup;
use crate::calls::{acquire, desc, dirty, moves, release, shape, surface};
use dd_calls::{Answer, DupCall, DupRefusal};
use dd_log::Log;
use dd_meta::{put_bytes, put_moves, put_rects};
use std::alloc::AllocError;

/// What was put into a buffer as an answer: where it is too short, more data is there.
fn told(put: Result<u32, u32>) -> Result<u32, DupRefusal>
    ensures { result ≡ put_answer put }
{
    match put {
        Ok(size) => Ok(size),
        Err(required) => Err(DupRefusal::MoreData { required }),
    }
}

impl Dup {
    ghost use Rattle.dd_dup.specs.News.{held_shape, shape_bytes};
    ghost use Rattle.dd_dup.specs.Reply.{held_reply, release_reply, moves_reply, dirty_reply, shape_reply, reply, call_takes_memory, IsNotShort, IsBounded};
    ghost use Rattle.dd_dup.specs.Duplicator.{released, IsRefused, IsLookedAt};
    ghost use Rattle.dd_dup.specs.Stands.{Stands};

    /// Why a call about the held frame is refused: the duplicator is lost, and from then on holds no
    /// frame; or there is none.
    fn check_held(&mut self, log: &Log) -> Result<(), DupRefusal>
        requires { Stands self.old log.now }
        ensures answer { result ≡ held_reply self.old.memory log.now }
        ensures ok { OnOk result (self.new ≡ self.old) }
        ensures refused { IsRefused result self.old self.new }
        ensures stands { Stands self.new log.now }
    {
        if self.is_lost(log) {
            self.refuse(log, DupRefusal::AccessLost);
            return Err(DupRefusal::AccessLost);
        }
        if self.held.is_none() {
            return Err(DupRefusal::InvalidCall);
        }
        Ok(())
    }

    /// Releases the held frame (ReleaseFrame). A duplicator that is lost is AccessLost, and from then on
    /// holds no frame; with no frame it is InvalidCall, and nothing changes.
    pub fn release(&mut self, log: &Log) -> Result<(), DupRefusal>
        requires { Stands self.old log.now }
        ensures answer { result ≡ release_reply self.old.memory log.now }
        ensures ok { OnOk result (self.new ≡ released self.old) }
        ensures refused { IsRefused result self.old self.new }
        ensures stands { Stands self.new log.now }
    {
        self.check_held(log)?;
        self.held = None;
        Ok(())
    }

    /// Puts the bytes of the held frame's moves, 24 each, at the buffer's front, and gives their
    /// number; the rest of the buffer stays (GetFrameMoveRects).
    ///
    /// A duplicator that is lost is AccessLost, and from then on holds no frame; with no frame it is
    /// InvalidCall; a buffer that is shorter is MoreData, with the number of bytes that is required. No
    /// refusal changes the buffer. A buffer of 384 bytes is never too short. No memory is taken.
    pub fn moves(&mut self, log: &Log, buffer: &mut [u8]) -> Result<u32, DupRefusal>
        requires { Stands self.old log.now }
        ensures answer { (result, buffer.new) ≡ moves_reply self.old.memory log.now buffer.old }
        ensures memory { IsLookedAt self.old self.new log.now }
        ensures stands { Stands self.new log.now }
        ensures enough { MOVES_BUFFER ≤ length buffer.old → IsNotShort result }
    {
        self.check_held(log)?;
        told(put_moves(self.move_list(), buffer))
    }

    /// Puts the bytes of the held frame's dirty rectangles, 16 each, at the buffer's front, and gives
    /// their number; the rest of the buffer stays (GetFrameDirtyRects).
    ///
    /// A duplicator that is lost is AccessLost, and from then on holds no frame; with no frame it is
    /// InvalidCall; a buffer that is shorter is MoreData, with the number of bytes that is required. No
    /// refusal changes the buffer. A buffer of 1,024 bytes is never too short. No memory is taken.
    pub fn dirty(&mut self, log: &Log, buffer: &mut [u8]) -> Result<u32, DupRefusal>
        requires { Stands self.old log.now }
        ensures answer { (result, buffer.new) ≡ dirty_reply self.old.memory log.now buffer.old }
        ensures memory { IsLookedAt self.old self.new log.now }
        ensures stands { Stands self.new log.now }
        ensures enough { RECTS_BUFFER ≤ length buffer.old → IsNotShort result }
    {
        self.check_held(log)?;
        told(put_rects(self.dirt_list(), buffer))
    }

    /// Its bytes; none where there is no new shape.
    fn shape_bytes(&self) -> &[u8]
        ensures value { result.now ≡ shape_bytes (held_shape self.now.memory.held) }
        ensures few { length result.now ≤ MAX_BYTES }
    {
        match self.new_shape() {
            None => &[],
            Some(shape) => shape.bytes(),
        }
    }

    /// Puts the bytes of the held frame's new shape at the buffer's front, and gives their number, 0
    /// where there is no new shape; the rest of the buffer stays (GetFramePointerShape).
    ///
    /// A duplicator that is lost is AccessLost, and from then on holds no frame; with no frame it is
    /// InvalidCall; a buffer that is shorter is MoreData, with the number of bytes that is required. No
    /// refusal changes the buffer. No memory is taken.
    pub fn shape(&mut self, log: &Log, buffer: &mut [u8]) -> Result<u32, DupRefusal>
        requires { Stands self.old log.now }
        ensures answer { (result, buffer.new) ≡ shape_reply self.old.memory log.now buffer.old }
        ensures memory { IsLookedAt self.old self.new log.now }
        ensures stands { Stands self.new log.now }
    {
        self.check_held(log)?;
        told(put_bytes(self.shape_bytes(), buffer))
    }

    /// Answers a call. Want of memory changes nothing, and comes only where the call takes memory: a
    /// release takes none, nor does a refusal.
    pub fn ask(&mut self, log: &Log, call: DupCall) -> Result<Answer, AllocError>
        requires { Stands self.old log.now }
        ensures answer { IfOk result (λ a. a ≡ (reply call self.old.memory log.now).0) }
        ensures bounded { IfOk result (λ a. IsBounded a) }
        ensures memory { OnOk result (self.new.memory ≡ (reply call self.old.memory log.now).1) }
        ensures err { OnErr result (self.new ≡ self.old) }
        ensures wants { OnErr result (IsTrue (call_takes_memory call self.old.memory log.now)) }
        ensures stands { Stands self.new log.now }
    {
        let alloc = self.alloc;
        match call {
            DupCall::Acquire => acquire(alloc, self, log),
            DupCall::Release => Ok(release(self, log)),
            DupCall::Moves { buffer } => moves(alloc, self, log, buffer),
            DupCall::Dirty { buffer } => dirty(alloc, self, log, buffer),
            DupCall::Shape { buffer } => shape(alloc, self, log, buffer),
            DupCall::Surface => surface(alloc, self, log),
            DupCall::Desc => Ok(desc(self, log)),
        }
    }
}
