//! A reader or a writer that can't be called but through a call that counts its faults.
ghost use Rattle.std.specs.Prelude.{◌≡◌, ◌<◌, ◌≤◌, ◌+◌, IfOk, IfErr, OnErr, OnOk, length};
ghost use Rattle.std.specs.Io.{ReadsAtMost, WritesAtMost};
ghost use Rattle.std.specs.Io.KnownBytes.{Keeps, ReadConsumes, WriteAppends};
ghost use Rattle.std.specs.IoError.{error_kind};
ghost use Rattle.dd_io.specs.Causes.{Rose, risen, raised};

use crate::Failed;
use std::io;
use std::io::{ErrorKind, Read, Write};

/// How often a call is tried that a signal interrupts before it moves a byte.
pub const MAX_TRIES: usize = 64;

// A device, and how many of its calls failed, an interrupted one too.
#[derive(Debug, Drop)]
pub(crate) struct Counted<D> {
    device: D,
    faults: u64,
}

impl<D> Counted<D> {
    pub(crate) fn new(device: D) -> Self
        ensures { result ≡ record { device = device; faults = 0 } }
    {
        Counted { device, faults: 0 }
    }

    // Counts a fault.
    fn fault(&mut self)
        ensures device { self.new.device ≡ self.old.device }
        ensures faults { self.new.faults ≡ risen self.old.faults }
    {
        self.faults = self.faults.saturating_add(1);
    }
}

impl<R: Read> Counted<R> {
    // One call of the reader.
    fn try_read(&mut self, buf: &mut [u8]) -> io::Result<usize>
        ensures bound { ReadsAtMost result buf.new }
        ensures bytes { ReadConsumes (R.remaining self.old.device) (R.remaining self.new.device) result buf.new }
        ensures failed { OnErr result (self.new.faults ≡ risen self.old.faults) }
        ensures ok { OnOk result (self.new.faults ≡ self.old.faults) }
    {
        let read = self.device.read(buf);
        if read.is_err() {
            self.fault();
        }
        read
    }

    // Reads, again where a signal interrupts.
    fn read_retrying(&mut self, buf: &mut [u8]) -> io::Result<usize>
        ensures bound { ReadsAtMost result buf.new }
        ensures bytes { ReadConsumes (R.remaining self.old.device) (R.remaining self.new.device) result buf.new }
        ensures failed { OnErr result (Rose self.old.faults self.new.faults) }
        ensures later { self.old.faults ≤ self.new.faults }
        ensures tries { self.new.faults ≤ self.old.faults + MAX_TRIES }
        ensures gives_up { IfErr result (λ e. error_kind e ≡ ErrorKind.Interrupted →
            self.new.faults ≡ raised MAX_TRIES self.old.faults) }
    {
        for tries in 1..MAX_TRIES {
            match self.try_read(buf) {
                Err(e) if e.kind() == ErrorKind::Interrupted => {}
                other => return other,
            }
        }
        self.try_read(buf)
    }

    pub(crate) fn read(&mut self, buf: &mut [u8]) -> Result<usize, Failed>
        ensures bound { IfOk result (λ n. n ≤ length buf.old) }
        ensures bytes { ReadConsumes (R.remaining self.old.device) (R.remaining self.new.device) result buf.new }
        ensures failed { OnErr result (Rose self.old.faults self.new.faults) }
        ensures later { self.old.faults ≤ self.new.faults }
        ensures tries { self.new.faults ≤ self.old.faults + MAX_TRIES }
    {
        self.read_retrying(buf).map_err(|_| Failed)
    }
}

impl<W: Write> Counted<W> {
    // One call of the writer, which fails where it takes nothing of a nonempty piece.
    fn try_write(&mut self, b: &[u8]) -> io::Result<usize>
        ensures bound { WritesAtMost result b.now }
        ensures some { IfOk result (λ n. 0 < length b.now → 0 < n) }
        ensures bytes { WriteAppends (W.contents self.old.device) (W.contents self.new.device) result b.now }
        ensures failed { OnErr result (self.new.faults ≡ risen self.old.faults) }
        ensures ok { OnOk result (self.new.faults ≡ self.old.faults) }
    {
        let written = match self.device.write(b) {
            Ok(0) if !b.is_empty() => Err(io::Error::from(ErrorKind::WriteZero)),
            other => other,
        };
        if written.is_err() {
            self.fault();
        }
        written
    }

    // Writes, again where a signal interrupts.
    fn write_retrying(&mut self, b: &[u8]) -> io::Result<usize>
        ensures bound { WritesAtMost result b.now }
        ensures some { IfOk result (λ n. 0 < length b.now → 0 < n) }
        ensures bytes { WriteAppends (W.contents self.old.device) (W.contents self.new.device) result b.now }
        ensures failed { OnErr result (Rose self.old.faults self.new.faults) }
        ensures later { self.old.faults ≤ self.new.faults }
        ensures tries { self.new.faults ≤ self.old.faults + MAX_TRIES }
        ensures gives_up { IfErr result (λ e. error_kind e ≡ ErrorKind.Interrupted →
            self.new.faults ≡ raised MAX_TRIES self.old.faults) }
    {
        for tries in 1..MAX_TRIES {
            match self.try_write(b) {
                Err(e) if e.kind() == ErrorKind::Interrupted => {}
                other => return other,
            }
        }
        self.try_write(b)
    }

    pub(crate) fn write(&mut self, b: &[u8]) -> Result<usize, Failed>
        ensures bound { WritesAtMost result b.now }
        ensures some { IfOk result (λ n. 0 < length b.now → 0 < n) }
        ensures bytes { WriteAppends (W.contents self.old.device) (W.contents self.new.device) result b.now }
        ensures failed { OnErr result (Rose self.old.faults self.new.faults) }
        ensures later { self.old.faults ≤ self.new.faults }
        ensures tries { self.new.faults ≤ self.old.faults + MAX_TRIES }
    {
        self.write_retrying(b).map_err(|_| Failed)
    }

    pub(crate) fn flush(&mut self) -> Result<(), Failed>
        ensures bytes { Keeps (W.contents self.old.device) (W.contents self.new.device) }
        ensures failed { OnErr result (self.new.faults ≡ risen self.old.faults) }
        ensures ok { OnOk result (self.new.faults ≡ self.old.faults) }
    {
        let flushed = self.device.flush();
        if flushed.is_err() {
            self.fault();
            return Err(Failed);
        }
        Ok(())
    }
}
