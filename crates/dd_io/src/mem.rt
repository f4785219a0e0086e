//! Devices in memory, which move their bytes in small pieces and fail where they are told to.
ghost use Rattle.std.specs.Prelude.{◌≡◌, ◌↔◌, ◌<◌, ◌≤◌, ◌+◌, ◌⊎◌, [], ◌++◌, length, take, drop, min, Some, Contains, IsErr, IfOk, OnErr};
ghost use Rattle.dd_io.specs.Causes.{risen};
ghost use Rattle.dd_io.specs.Devices.{unused_device, after_call, after_fault};

use crate::schedule::Schedule;
use crate::{Bytes, Failed, Numbers, Sink, Source};
use std::alloc::Global;
use std::marker::Model;

/// A source that gives bytes of its own, and tells them.
#[derive(Debug, Drop)]
pub struct MemSource {
    bytes: Bytes,
    at: usize,
    piece: usize,
    schedule: Schedule,
}

// The place is within the bytes, and a call can give at least one.
impl Model for MemSource {
    ghost use Rattle.std.specs.Prelude.{◌≤◌, drop, length};
    ghost use Rattle.dd_io.specs.Devices.{Device};

    ghost Value = { Device };

    ghost view = { λ a. record {
      bytes = drop a.at a.bytes;
      piece = a.piece;
      fails = a.schedule.fails;
      calls = a.schedule.calls;
      faults = a.schedule.faults;
    } };

    ghost invariant = { λ a. (a.at ≤ length a.bytes) × (1 ≤ a.piece) };
}

impl MemSource {
    /// Gives these bytes, at most `piece` of them a call, and fails the calls whose numbers,
    /// counted from 1, stand in `fails`.
    pub fn new(bytes: Bytes, piece: usize, fails: Numbers) -> Self
        requires { 1 ≤ piece }
        ensures { result ≡ unused_device bytes piece fails }
    {
        MemSource {
            bytes,
            at: 0,
            piece,
            schedule: Schedule::new(fails),
        }
    }
}

impl Source for MemSource {
    ghost left = { λ s. Some s.bytes };

    ghost faults = { λ s. s.faults };

    fn read(&mut self, buf: &mut [u8]) -> Result<usize, Failed>
        ensures fails { IsErr result ↔ Contains self.old.fails (risen self.old.calls) }
        ensures failed { OnErr result (self.new ≡ after_fault self.old) }
        ensures count { IfOk result (λ n.
            n ≡ min (length self.old.bytes) (min self.old.piece (length buf.old))) }
        ensures gives { IfOk result (λ n. buf.new ≡ take n self.old.bytes ++ drop n buf.old) }
        ensures left { IfOk result (λ n. self.new ≡ after_call self.old (drop n self.old.bytes)) }
        ensures end { IfOk result (λ n. n ≡ 0 → 0 < length buf.old → self.new.bytes ≡ []) }
        ensures later { self.old.faults ≤ self.new.faults }
    {
        if self.schedule.next_fails() {
            self.schedule.fault();
            return Err(Failed);
        }
        let left = &self.bytes.as_slice()[self.at..];
        let n = left.len().min(self.piece).min(buf.len());
        buf[..n].copy_from_slice(&left[..n]);
        self.at += n;
        Ok(n)
    }
}

/// A sink that keeps the bytes in memory, and tells them.
#[derive(Debug, Drop)]
pub struct MemSink {
    bytes: Vec<u8>,
    piece: usize,
    schedule: Schedule,
}

// A call can take at least one byte.
impl Model for MemSink {
    ghost use Rattle.std.specs.Prelude.{◌≤◌, ◌-◌, vec_capacity, vec_len};
    ghost use Rattle.dd_io.specs.Devices.{Keeper};

    ghost Value = { Keeper };

    ghost view = { λ a. record {
      device = record {
        bytes = a.bytes.items;
        piece = a.piece;
        fails = a.schedule.fails;
        calls = a.schedule.calls;
        faults = a.schedule.faults;
      };
      room = vec_capacity a.bytes - vec_len a.bytes;
    } };

    ghost invariant = { λ a. 1 ≤ a.piece };
}

impl MemSink {
    /// Holds nothing yet, takes at most `piece` bytes a call, and fails the calls whose numbers,
    /// counted from 1, stand in `fails`.
    ///
    /// It also fails where it finds no memory.
    pub fn new(alloc: Global, piece: usize, fails: Numbers) -> Self
        requires { 1 ≤ piece }
        ensures { result.device ≡ unused_device [] piece fails }
    {
        MemSink {
            bytes: Vec::new(alloc),
            piece,
            schedule: Schedule::new(fails),
        }
    }

    /// The bytes held.
    pub fn bytes(&self) -> &[u8]
        ensures { result.now ≡ self.now.device.bytes }
    {
        &self.bytes
    }
}

impl Sink for MemSink {
    ghost held = { λ s. Some s.device.bytes };

    ghost faults = { λ s. s.device.faults };

    fn write(&mut self, b: &[u8]) -> Result<usize, Failed>
        ensures fails { Contains self.old.device.fails (risen self.old.device.calls) → IsErr result }
        // A call that isn't planned to fail fails only where memory was wanting.
        ensures wants { IsErr result → Contains self.old.device.fails (risen self.old.device.calls)
            ⊎ (self.old.room < min (length b.now) self.old.device.piece) }
        ensures failed { OnErr result (self.new.device ≡ after_fault self.old.device) }
        ensures some { IfOk result (λ n. 0 < length b.now → 0 < n) }
        ensures count { IfOk result (λ n. n ≡ min (length b.now) self.old.device.piece) }
        ensures appends { IfOk result (λ n.
            self.new.device ≡ after_call self.old.device (self.old.device.bytes ++ take n b.now)) }
        ensures room { IfOk result (λ n. self.old.room ≤ self.new.room + n) }
        ensures failed_room { OnErr result (self.old.room ≤ self.new.room) }
        ensures later { self.old.device.faults ≤ self.new.device.faults }
    {
        if self.schedule.next_fails() {
            self.schedule.fault();
            return Err(Failed);
        }
        let n = b.len().min(self.piece);
        if self.bytes.extend_from_slice(&b[..n]).is_err() {
            self.schedule.fault();
            return Err(Failed);
        }
        Ok(n)
    }
}
