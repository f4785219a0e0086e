//! The standard library's readers and writers as sources and sinks: the trusted edge.
ghost use Rattle.std.specs.Prelude.{◌≡◌, ◌<◌, ◌≤◌, ◌+◌, length, take, drop, IfOk, OnErr, OnOk};
ghost use Rattle.std.specs.Io.KnownBytes.{Appends, Consumes, IsAtEnd, Keeps};
ghost use Rattle.dd_io.specs.Causes.{Rose, risen};

use crate::counted::{Counted, MAX_TRIES};
use crate::{CHUNK, Failed, Sink, Source};
use std::io::{Read, Write};
use std::marker::Model;

/// A reader as a source. It tells of the bytes what the reader tells, and counts each failed call.
///
/// A read that a signal interrupts is tried again, `MAX_TRIES` times in all.
#[derive(Debug, Drop)]
pub struct StdSource<R: Read + Drop> {
    reader: Counted<R>,
}

// A contract sees what the reader tells of its bytes, and the count of faults.
impl<R: Read + Drop> Model for StdSource<R> {
    ghost use Rattle.dd_io.specs.Edge.{Edge};

    ghost Value = { Edge };

    ghost view = { λ a. record { bytes = R.remaining a.reader.device; faults = a.reader.faults } };
}

impl<R: Read + Drop> StdSource<R> {
    pub fn new(reader: R) -> Self
        ensures { result ≡ record { bytes = R.remaining reader; faults = 0 } }
    {
        StdSource {
            reader: Counted::new(reader),
        }
    }
}

impl<R: Read + Drop> Source for StdSource<R> {
    ghost left = { λ s. s.bytes };

    ghost faults = { λ s. s.faults };

    fn read(&mut self, buf: &mut [u8]) -> Result<usize, Failed>
        ensures bound { IfOk result (λ n. n ≤ length buf.old) }
        ensures gives { IfOk result (λ n. Consumes self.old.bytes self.new.bytes (take n buf.new)) }
        ensures rest { IfOk result (λ n. drop n buf.new ≡ drop n buf.old) }
        ensures end { IfOk result (λ n. n ≡ 0 → 0 < length buf.old → IsAtEnd self.new.bytes) }
        ensures failed_keeps { OnErr result (Keeps self.old.bytes self.new.bytes) }
        ensures failed { OnErr result (Rose self.old.faults self.new.faults) }
        ensures later { self.old.faults ≤ self.new.faults }
        ensures tries { self.new.faults ≤ self.old.faults + MAX_TRIES }
    {
        // A reader may write past what it gives, so it gets a buffer of its own.
        let mut chunk = [0; CHUNK];
        let room = buf.len().min(CHUNK);
        let n = self.reader.read(&mut chunk[..room])?;
        buf[..n].copy_from_slice(&chunk[..n]);
        Ok(n)
    }
}

/// A writer as a sink. It tells of the bytes what the writer tells, and counts each failed call.
///
/// A write that a signal interrupts is tried again, `MAX_TRIES` times in all. A writer that takes nothing
/// of a nonempty piece has failed.
#[derive(Debug, Drop)]
pub struct StdSink<W: Write + Drop> {
    writer: Counted<W>,
}

// A contract sees what the writer tells of its bytes, and the count of faults.
impl<W: Write + Drop> Model for StdSink<W> {
    ghost use Rattle.dd_io.specs.Edge.{Edge};

    ghost Value = { Edge };

    ghost view = { λ a. record { bytes = W.contents a.writer.device; faults = a.writer.faults } };
}

impl<W: Write + Drop> StdSink<W> {
    pub fn new(writer: W) -> Self
        ensures { result ≡ record { bytes = W.contents writer; faults = 0 } }
    {
        StdSink {
            writer: Counted::new(writer),
        }
    }

    /// Passes on what the writer has kept back.
    pub fn flush(&mut self) -> Result<(), Failed>
        ensures keeps { Keeps self.old.bytes self.new.bytes }
        ensures failed { OnErr result (self.new.faults ≡ risen self.old.faults) }
        ensures ok { OnOk result (self.new.faults ≡ self.old.faults) }
    {
        self.writer.flush()
    }
}

impl<W: Write + Drop> Sink for StdSink<W> {
    ghost held = { λ s. s.bytes };

    ghost faults = { λ s. s.faults };

    fn write(&mut self, b: &[u8]) -> Result<usize, Failed>
        ensures bound { IfOk result (λ n. n ≤ length b.now) }
        ensures some { IfOk result (λ n. 0 < length b.now → 0 < n) }
        ensures appends { IfOk result (λ n. Appends self.old.bytes self.new.bytes (take n b.now)) }
        ensures failed_keeps { OnErr result (Keeps self.old.bytes self.new.bytes) }
        ensures failed { OnErr result (Rose self.old.faults self.new.faults) }
        ensures later { self.old.faults ≤ self.new.faults }
        ensures tries { self.new.faults ≤ self.old.faults + MAX_TRIES }
    {
        self.writer.write(b)
    }
}
