//! The chunks of a record.

ghost use Rattle.std.specs.Prelude.{◌≡◌, ◌≤◌, ◌^◌, length, take, IfSome, IfOk};
ghost use Rattle.dd_geom.specs.Rect.{IsSize};
ghost use Rattle.dd_record.specs.Answers.{Gives};
ghost use Rattle.dd_record.specs.Dirt.{pixel_count};
ghost use Rattle.dd_record.specs.Fitting.{Fits};
ghost use Rattle.dd_record.specs.Grammar.{frame_chunk_of, behind_shape, frame_of, opening_of, tagged, chunk_of};
ghost use Rattle.dd_record.specs.Grammar.{told, Tells};
ghost use Rattle.dd_record.specs.Reading.{Good, NothingBad, number};

use crate::fault::{RecordFault, Stop};
use crate::fields::u8_at;
use crate::head::{head_of, mode_of};
use crate::layout::{END_BYTES, FRAME_HEAD_BYTES, OPENING_BYTES, PIXEL_BYTES, SHAPE_HEAD_BYTES};
use crate::pixels::{pixels_good, pixels_of};
use crate::rectangles::{dirt_of, moves_of, pixel_count};
use crate::shapes::new_shape_of;
use dd_calls::FrameInfo;
use dd_geom::{MOVE_BYTES, Moves, Rects};
use dd_modes::Mode;
use dd_ops::Colours;
use dd_pointer::Shape;
use std::alloc::Global;

/// A chunk of a record.
#[derive(Debug, Drop)]
pub enum Chunk {
    /// A duplicator was opened in this mode.
    Opening { mode: Mode },
    /// A frame was acquired.
    Frame(FrameChunk),
    /// The record ends.
    End,
}

/// An acquired frame.
#[derive(Debug, Drop)]
pub struct FrameChunk {
    pub info: FrameInfo,
    pub moves: Moves,
    pub dirt: Rects,
    /// The colours of the dirty rectangles, one rectangle after another, row by row.
    pub pixels: Colours,
    /// The new shape of the pointer; none where it stays.
    pub shape: Option<Shape>,
}

/// A whole chunk.
#[derive(Debug, Drop)]
pub struct Parsed {
    pub chunk: Chunk,
    /// How many bytes it has, its tag too.
    pub used: u64,
}

/// The frame of a frame chunk, whose first `good` bytes were found good before.
#[tactic(auto, unfolding(crate::specs::Grammar::frame_chunk_of), using(crate::proofs::Before::in_pieces))]
fn frame_chunk_of(alloc: Global, mode: Mode, bytes: &[u8], good: usize) -> Result<FrameChunk, Stop>
    requires size { IsSize mode.width mode.height }
    requires good { good ≤ length bytes.now }
    requires before { NothingBad (frame_chunk_of mode (take good bytes.now)) }
    ensures value { Gives result (frame_chunk_of mode bytes.now) }
    ensures few { IfOk result (λ frame. pixel_count frame.dirt ≤ 2 ^ 32) }
{
    let head = head_of(bytes)?;
    let moves = moves_of(alloc, mode, head.moves, bytes, FRAME_HEAD_BYTES)?;
    let at = FRAME_HEAD_BYTES + MOVE_BYTES as usize * usize::from(head.moves);
    let dirt = dirt_of(alloc, mode, head.rects, bytes, at)?;
    let count = pixel_count(dirt.as_slice());
    let start = FRAME_HEAD_BYTES + head.info.meta_size as usize;
    pixels_good(count, bytes, start, good)?;
    let shape = new_shape_of(
        alloc,
        head.info.shape_size,
        bytes,
        start + PIXEL_BYTES * count,
    )?;
    // Colours are collected only once all of the chunk has come.
    let pixels = pixels_of(alloc, count, bytes, start)?;
    Ok(FrameChunk {
        info: head.info,
        moves,
        dirt,
        pixels,
        shape,
    })
}

/// The place behind a frame's shape, and so the size of its chunk.
fn behind_shape(info: FrameInfo, dirt: &Rects) -> usize
    requires { pixel_count dirt.now ≤ 2 ^ 32 }
    ensures { result ≡ behind_shape info dirt.now }
{
    let shape = if info.shape_size == 0 {
        0
    } else {
        SHAPE_HEAD_BYTES + info.shape_size as usize
    };
    let pixels = PIXEL_BYTES * pixel_count(dirt.as_slice());
    FRAME_HEAD_BYTES + info.meta_size as usize + pixels + shape
}

/// A frame chunk of a surface of this mode.
#[tactic(auto, unfolding(crate::specs::Grammar::frame_of), using(crate::proofs::Testing::first_not_bad))]
fn frame_of(alloc: Global, mode: Mode, bytes: &[u8], good: usize) -> Result<Parsed, Stop>
    requires size { IsSize mode.width mode.height }
    requires good { good ≤ length bytes.now }
    requires before { NothingBad (frame_of mode (take good bytes.now)) }
    ensures { Gives result (frame_of mode bytes.now) }
{
    let frame = frame_chunk_of(alloc, mode, bytes, good)?;
    let used = behind_shape(frame.info, &frame.dirt) as u64;
    Ok(Parsed {
        chunk: Chunk::Frame(frame),
        used,
    })
}

/// An opening chunk.
#[tactic(auto, unfolding(crate::specs::Grammar::opening_of))]
fn opening_of(bytes: &[u8]) -> Result<Parsed, Stop>
    ensures { Gives result (opening_of bytes.now) }
{
    let mode = mode_of(bytes)?;
    Ok(Parsed {
        chunk: Chunk::Opening { mode },
        used: OPENING_BYTES as u64,
    })
}

/// The chunk of a tag.
#[tactic(auto, using(crate::proofs::Before::frame_before))]
fn tagged(
    alloc: Global,
    mode: Option<Mode>,
    bytes: &[u8],
    tag: u8,
    good: usize,
) -> Result<Parsed, Stop>
    requires mode { IfSome mode (λ m. IsSize m.width m.height) }
    requires good { good ≤ length bytes.now }
    requires before { NothingBad (chunk_of mode (take good bytes.now)) }
    requires tag { number 0 1 bytes.now ≡ Good tag }
    ensures { Gives result (tagged mode bytes.now tag) }
{
    match (tag, mode) {
        (0, _) => Ok(Parsed {
            chunk: Chunk::End,
            used: END_BYTES as u64,
        }),
        (1, _) => opening_of(bytes),
        (2, Some(mode)) => frame_of(alloc, mode, bytes, good),
        _ => Err(Stop::Bad { at: 0 }),
    }
}

/// The chunk that bytes begin with.
#[tactic(auto, unfolding(crate::specs::Grammar::chunk_of))]
fn chunk_of(alloc: Global, mode: Option<Mode>, bytes: &[u8], good: usize) -> Result<Parsed, Stop>
    requires mode { IfSome mode (λ m. IsSize m.width m.height) }
    requires good { good ≤ length bytes.now }
    requires before { NothingBad (chunk_of mode (take good bytes.now)) }
    ensures { Gives result (chunk_of mode bytes.now) }
{
    let tag = u8_at(bytes, 0)?;
    tagged(alloc, mode, bytes, tag, good)
}

/// Reads the chunk that `bytes` begin with. Its tag stands at byte `at` of the record, and `mode` is
/// that of the last opening chunk before it, if there was one. The place is at most 2^36, and the
/// mode has a size that surfaces have.
///
/// None where the chunk isn't whole and no field that has come whole is bad. `BadField` tells the
/// place, in the record, of the first byte of the first field that has come whole and breaks its
/// rule. No other fault is answered but want of memory.
#[tactic(auto, using(crate::proofs::Before::nothing_yet))]
pub fn parse_chunk(
    alloc: Global,
    bytes: &[u8],
    at: u64,
    mode: Option<Mode>,
) -> Result<Option<Parsed>, RecordFault>
    requires place { at ≤ 2 ^ 36 }
    requires mode { IfSome mode (λ m. IsSize m.width m.height) }
    ensures told { Tells result (told at (chunk_of mode bytes.now)) }
    // Its moves and rectangles lie inside the surface, and its bytes among those that came.
    ensures fits { IfOk result (λ chunk. IfSome chunk (Fits mode (length bytes.now))) }
{
    parse_chunk_from(alloc, bytes, at, mode, 0)
}

/// As `parse_chunk`, where the first `good` bytes were found good before, as by an answer of None.
///
/// The pixels within these bytes aren't tested again. So what is done in all for a chunk that comes
/// in pieces grows with its bytes, and with the number of pieces only by a frame's head, moves and
/// rectangles.
pub fn parse_chunk_from(
    alloc: Global,
    bytes: &[u8],
    at: u64,
    mode: Option<Mode>,
    good: u64,
) -> Result<Option<Parsed>, RecordFault>
    requires place { at ≤ 2 ^ 36 }
    requires mode { IfSome mode (λ m. IsSize m.width m.height) }
    requires good { good ≤ length bytes.now }
    requires before { NothingBad (chunk_of mode (take good bytes.now)) }
    ensures told { Tells result (told at (chunk_of mode bytes.now)) }
    // Its moves and rectangles lie inside the surface, and its bytes among those that came.
    ensures fits { IfOk result (λ chunk. IfSome chunk (Fits mode (length bytes.now))) }
{
    match chunk_of(alloc, mode, bytes, good as usize) {
        Ok(parsed) => Ok(Some(parsed)),
        Err(Stop::Short) => Ok(None),
        Err(Stop::Bad { at: offset }) => Err(RecordFault::BadField {
            at: at + offset as u64,
        }),
        Err(Stop::OutOfMemory) => Err(RecordFault::OutOfMemory),
    }
}
