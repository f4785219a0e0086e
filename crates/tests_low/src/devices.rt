//! Devices that fail, that are interrupted, and that move short pieces.

ghost use Rattle.std.specs.Prelude.{◌≤◌, IfOk};

use dd_io::{
    Bytes, Failed, MemSink, MemSource, Numbers, OutOfMemory, ReadUpFault, Sink, Source, StdSink,
    StdSource, read_up_to, write_all,
};
use std::alloc::Global;
use std::io;
use std::io::{Error, ErrorKind, Read, Write};
use std::test::Fail;

const TEXT: &[u8] = b"forty bytes, and the next one is the last";

fn numbers(alloc: Global, items: &[u64]) -> Result<Numbers, OutOfMemory> {
    Ok(Numbers::from_vec(items.to_vec(alloc)?))
}

fn text_source(alloc: Global, piece: usize, fails: &[u64]) -> Result<MemSource, OutOfMemory>
    requires { 1 ≤ piece }
{
    let bytes = Bytes::from_vec(TEXT.to_vec(alloc)?);
    Ok(MemSource::new(bytes, piece, numbers(alloc, fails)?))
}

/// What a call gives, the calls that fail, the limit, and the answer. Of the 41 bytes, 7 a call take
/// six calls, and the seventh tells the end.
type Reading = (
    usize,
    &'static [u64],
    u64,
    Result<&'static [u8], ReadUpFault>,
);

static READINGS: [Reading; 7] = [
    (1, &[], 41, Ok(TEXT)),
    (100, &[], u64::MAX, Ok(TEXT)),
    (1, &[], 40, Err(ReadUpFault::TooLong)),
    (7, &[], 0, Err(ReadUpFault::TooLong)),
    (7, &[9, 4], 41, Err(ReadUpFault::Failed)),
    (7, &[7], 41, Err(ReadUpFault::Failed)),
    (7, &[8], 41, Ok(TEXT)),
];

#[test]
fn sources_are_read_up_to_a_limit(rt: HostRuntime) -> Result<(), Fail> {
    let alloc = rt.alloc();
    for (piece, fails, limit, want) in &READINGS {
        let mut source = text_source(alloc, (*piece).max(1), fails)?;
        let got = read_up_to(alloc, &mut source, *limit);
        let got = match &got {
            Ok(bytes) => Ok(bytes.as_slice()),
            Err(fault) => Err(*fault),
        };
        assert_eq!(rt; got, *want, "pieces of {piece}, limit {limit}");
    }
    Ok(())
}

/// What a call takes, the calls that fail, the answer, and what the sink then holds.
type Writing = (usize, &'static [u64], Result<(), Failed>, &'static [u8]);

static WRITINGS: [Writing; 5] = [
    (1, &[], Ok(()), b"0123456789"),
    (7, &[1], Err(Failed), b""),
    (7, &[2], Err(Failed), b"0123456"),
    (7, &[3], Ok(()), b"0123456789"),
    (3, &[5, 4], Err(Failed), b"012345678"),
];

#[test]
fn pieces_are_written_whole_or_their_first_bytes_are(rt: HostRuntime) -> Result<(), Fail> {
    let alloc = rt.alloc();
    for (piece, fails, want, held) in &WRITINGS {
        let mut sink = MemSink::new(alloc, (*piece).max(1), numbers(alloc, fails)?);
        assert_eq!(rt;
            write_all(&mut sink, b"0123456789"),
            *want,
            "{piece} bytes a call"
        );
        assert_eq!(rt; sink.bytes(), *held, "{piece} bytes a call");
    }
    Ok(())
}

/// A device that is interrupted so many times, moves at most two bytes, moves none, and then fails.
#[derive(Drop)]
struct Device {
    interruptions: u32,
    calls: u32,
}

impl Device {
    fn new(interruptions: u32) -> Device {
        Device {
            interruptions,
            calls: 0,
        }
    }

    /// How many bytes of a piece the next call moves.
    fn next(&mut self, length: usize) -> io::Result<usize>
        ensures { IfOk result (λ n. n ≤ length) }
    {
        if self.interruptions > 0 {
            self.interruptions -= 1;
            return Err(Error::from(ErrorKind::Interrupted));
        }
        self.calls = self.calls.saturating_add(1);
        match self.calls {
            1 => Ok(length.min(2)),
            2 => Ok(0),
            _ => Err(Error::from(ErrorKind::Other)),
        }
    }
}

impl Read for Device {
    fn read(&mut self, buf: &mut [u8]) -> io::Result<usize> {
        let n = self.next(buf.len())?;
        buf[..n].fill(b'a');
        Ok(n)
    }
}

impl Write for Device {
    fn write(&mut self, buf: &[u8]) -> io::Result<usize> {
        self.next(buf.len())
    }

    fn flush(&mut self) -> io::Result<()> {
        self.next(0).map(|_| ())
    }
}

/// A call is tried 64 times, and one that is interrupted each time has failed.
#[test]
fn interrupted_reads_are_tried_64_times(rt: HostRuntime) {
    let mut buf = *b"----";
    let mut source = StdSource::new(Device::new(63));
    assert_eq!(rt; source.read(&mut buf), Ok(2));
    assert_eq!(rt; buf.as_slice(), b"aa--".as_slice());
    assert_eq!(rt; source.read(&mut buf), Ok(0));
    assert_eq!(rt; source.read(&mut buf), Err(Failed));

    let mut source = StdSource::new(Device::new(64));
    assert_eq!(rt; source.read(&mut buf), Err(Failed));
    assert_eq!(rt; source.read(&mut buf), Ok(2));
}

/// A writer that takes nothing of a nonempty piece has failed.
#[test]
fn interrupted_writes_are_tried_64_times(rt: HostRuntime) {
    let mut sink = StdSink::new(Device::new(63));
    assert_eq!(rt; sink.write(b"abc"), Ok(2));
    assert_eq!(rt; sink.write(b"c"), Err(Failed));
    assert_eq!(rt; sink.flush(), Err(Failed));

    let mut sink = StdSink::new(Device::new(64));
    assert_eq!(rt; sink.write(b"abc"), Err(Failed));
    assert_eq!(rt; sink.flush(), Ok(()));
    assert_eq!(rt; sink.write(b""), Ok(0));
}
