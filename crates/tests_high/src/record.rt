//! Chunks with one bad field, a whole one, and sinks that fail, with bytes and places worked out by hand.

use dd_geom::{Move, Point, Rect};
use dd_io::{Failed, MemSink, Numbers, Sink};
use dd_modes::{Mode, Rotation};
use dd_record::RecordFault::BadField;
use dd_record::{
    Chunk, FrameChunk, RecordFault, parse_chunk, write_end, write_magic, write_opening,
};
use std::alloc::Global;
use std::process::Abort;
use std::test::Fail;

const MODE: Mode = Mode {
    width: 4,
    height: 3,
    rotation: Rotation::Rotate90,
};

/// An opening chunk of that mode.
static OPENING: [u8; 13] = [1, 4, 0, 0, 0, 3, 0, 0, 0, 2, 0, 0, 0];

/// A frame chunk of that mode, with a move, two rectangles of three points, and a shape of one pixel.
static FRAME: [u8; 134] = [
    2, //
    5, 0, 0, 0, 0, 0, 0, 0, // 1: last present
    3, 0, 0, 0, 0, 0, 0, 0, // 9: last mouse
    2, 0, 0, 0, // 17: accumulated
    1, // 21: coalesced
    0, // 22: protected
    255, 255, 255, 255, // 23: x
    1, 0, 0, 0, // 27: y
    1, // 31: visible
    56, 0, 0, 0, // 32: meta
    4, 0, 0, 0, // 36: shape size
    1, // 40: moves
    2, // 41: rectangles
    1, 0, 0, 0, 1, 0, 0, 0, 0, 0, 0, 0, 0, 0, 0, 0, 3, 0, 0, 0, 2, 0, 0, 0, // 42: the move
    0, 0, 0, 0, 0, 0, 0, 0, 2, 0, 0, 0, 1, 0, 0, 0, // 66: the first rectangle
    1, 0, 0, 0, 1, 0, 0, 0, 2, 0, 0, 0, 2, 0, 0, 0, // 82: the second one
    1, 2, 3, 255, 4, 5, 6, 255, 7, 8, 9, 255, // 98: the pixels
    4, 0, 0, 0, 1, 0, 0, 0, 1, 0, 0, 0, 0, 0, 0, 0, 0, 0, 0, 0, // 110: the shape
    15, 15, 15, 255, // 130: its bytes
];

/// Bytes that are changed, and the place of the field that is bad then.
type Change = (&'static [(usize, u8)], u64);

static BAD_IN_OPENING: [Change; 7] = [
    (&[(0, 3)], 0),
    (&[(1, 0)], 1),
    // 8193 wide
    (&[(1, 1), (2, 32)], 1),
    (&[(5, 0)], 5),
    (&[(5, 1), (6, 32)], 5),
    // 8192 by 2049 points
    (&[(1, 0), (2, 32), (5, 1), (6, 8)], 5),
    (&[(9, 5)], 9),
];

static BAD_IN_FRAME: [Change; 33] = [
    // the event numbers 1,048,577
    (&[(1, 1), (3, 16)], 1),
    (&[(9, 1), (11, 16)], 9),
    // neither a present nor a pointer
    (&[(1, 0), (9, 0)], 9),
    (&[(17, 0)], 17),
    (&[(17, 6)], 17),
    (&[(1, 0)], 17),
    (&[(21, 2)], 21),
    (&[(1, 0), (17, 0)], 21),
    (&[(22, 2)], 22),
    (&[(31, 2)], 31),
    // 1409 bytes, and some of nothing
    (&[(32, 129), (33, 5)], 32),
    (&[(1, 0), (17, 0), (21, 0)], 32),
    // 262,145 bytes, and some without a pointer
    (&[(36, 1), (38, 4)], 36),
    (&[(9, 0)], 36),
    // 17 moves, and as many as have too many bytes
    (&[(32, 128), (33, 5), (40, 17)], 40),
    (&[(40, 3)], 40),
    // 65 rectangles, and one that leaves bytes
    (&[(32, 40), (33, 4), (41, 65)], 41),
    (&[(41, 1)], 41),
    // a move from outside, from above, and to outside
    (&[(42, 2)], 42),
    (&[(49, 128)], 42),
    (&[(58, 5)], 42),
    // rectangles without a point, past the right side and past the bottom, and left of the surface
    (&[(74, 0)], 66),
    (&[(74, 5)], 66),
    (&[(94, 4)], 82),
    (&[(69, 128)], 66),
    // rectangles that overlap, that are one, and in the wrong order
    (&[(86, 0)], 66),
    (&[(82, 0)], 66),
    (&[(70, 2), (78, 3)], 66),
    // pixels
    (&[(101, 254)], 98),
    (&[(109, 0)], 106),
    // a shape of no kind, and one of eight bytes
    (&[(110, 3)], 110),
    (&[(114, 2)], 110),
    // a mask of 1
    (&[(133, 1)], 130),
];

/// The fault that is told of bytes whose tag stands at byte 0.
fn fault_of(alloc: Global, bytes: &[u8]) -> Option<RecordFault> {
    parse_chunk(alloc, bytes, 0, Some(MODE)).err()
}

/// The fault of a chunk with some bytes changed.
fn fault_of_changed(
    alloc: Global,
    chunk: &[u8],
    places: &[(usize, u8)],
) -> Result<Option<RecordFault>, Fail> {
    let mut bytes = chunk.to_vec(alloc)?;
    for (place, byte) in places {
        if let Some(changed) = bytes.get_mut(*place) {
            *changed = *byte;
        }
    }
    Ok(fault_of(alloc, bytes.as_slice()))
}

/// Each of the changes makes one field of the chunk bad.
fn each_is_bad(
    rt: &impl Abort,
    alloc: Global,
    chunk: &[u8],
    changes: &[Change],
) -> Result<(), Fail> {
    for (places, at) in changes {
        let fault = fault_of_changed(alloc, chunk, places)?;
        assert_eq!(rt; fault, Some(BadField { at: *at }));
    }
    Ok(())
}

#[test]
fn one_field_is_bad(rt: HostRuntime) -> Result<(), Fail> {
    each_is_bad(&rt, rt.alloc(), &OPENING, &BAD_IN_OPENING)?;
    each_is_bad(&rt, rt.alloc(), &FRAME, &BAD_IN_FRAME)
}

/// The frame that bytes begin with.
fn frame_of(alloc: Global, bytes: &[u8]) -> Result<FrameChunk, Fail> {
    let parsed = parse_chunk(alloc, bytes, 0, Some(MODE))?.ok_or("not whole")?;
    match parsed.chunk {
        Chunk::Frame(frame) => Ok(frame),
        Chunk::Opening { .. } | Chunk::End => Err("no frame")?,
    }
}

#[test]
fn a_frame_with_all_parts(rt: HostRuntime) -> Result<(), Fail> {
    let frame = frame_of(rt.alloc(), &FRAME)?;
    let scrolled = Move {
        source: Point { x: 1, y: 1 },
        dest: Rect {
            left: 0,
            top: 0,
            right: 3,
            bottom: 2,
        },
    };
    assert_eq!(rt; frame.moves.as_slice(), [scrolled].as_slice());
    assert_eq!(rt;
        frame.pixels.as_slice(),
        [0x03_0201, 0x06_0504, 0x09_0807].as_slice()
    );
    Ok(())
}

/// Writes a record without a frame.
fn write_record<K: Sink>(k: &mut K) -> Result<(), Failed> {
    write_magic(k)?;
    write_opening(k, MODE)?;
    write_end(k)
}

#[test]
fn sinks_fail(rt: HostRuntime) -> Result<(), Fail> {
    let alloc = rt.alloc();
    // The call that fails, counted from 1, and how many bytes are written then.
    for (fails, written) in [(1, 0), (2, 4), (3, 17), (4, 18)] {
        let fails = Numbers::from_vec([fails].to_vec(alloc)?);
        let mut sink = MemSink::new(alloc, 4096, fails);
        let done = write_record(&mut sink);
        assert_eq!(rt; done.is_ok(), written == 18);
        assert_eq!(rt; sink.bytes().len(), written);
    }
    Ok(())
}
