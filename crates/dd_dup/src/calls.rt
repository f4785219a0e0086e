//! What a duplicator answers to a call, with copies of what a frame lends.

ghost use Rattle.std.specs.Prelude.{◌≡◌, ◌<◌, ◌≤◌, Ok, IfOk, OnOk, OnErr, IsOk, IsSome, length, false};
ghost use Rattle.dd_geom.specs.Grid.{rows};
ghost use Rattle.dd_pointer.specs.Shape.{info_of};
ghost use Rattle.dd_coal.specs.declared.coalescing.TheConstants.{MAX_RECTS};
ghost use Rattle.dd_acc.specs.declared.interval.TheConstants.{MAX_MOVES};
ghost use Rattle.dd_log.specs.History.{any_begins};
ghost use Rattle.dd_dup.specs.News.{news, held_shape};
ghost use Rattle.dd_dup.specs.Reply.{granted, acquire_reply, acquire_memory, acquire_answer, release_reply, release_memory, release_answer, held_memory, moves_reply, dirty_reply, shape_reply, buffer_answer, shape_answer, in_buffer, held_shape_info, filled_buffer, surface_reply, desc_reply, IsBounded};
ghost use Rattle.dd_dup.specs.Stands.{Stands};

use crate::duplicator::Dup;
use crate::frame::News;
use dd_calls::{Answer, DupRefusal, Rows};
use dd_geom::{Moves, Rects};
use dd_grid::Surface;
use dd_io::Bytes;
use dd_log::Log;
use dd_ops::Colours;
use dd_pointer::ShapeInfo;
use std::alloc::{AllocError, Global};

/// What each byte of a buffer is before a call.
pub const FILL: u8 = 238;

/// The moves and the dirty rectangles of what is new, on memory of their own.
fn lists_of(alloc: Global, news: &News) -> Result<(Moves, Rects), AllocError>
    ensures moves { IfOk result (λ l. l.0 ≡ news.now.picture.moves) }
    ensures dirt { IfOk result (λ l. l.1 ≡ news.now.picture.dirt) }
    ensures few_moves { IfOk result (λ l. length l.0 ≤ MAX_MOVES) }
    ensures few_rects { IfOk result (λ l. length l.1 ≤ MAX_RECTS) }
{
    let moves = Vec::from_slice(alloc, news.picture.moves.as_slice())?;
    let dirt = Vec::from_slice(alloc, news.picture.dirt.as_slice())?;
    Ok((Moves::from_vec(moves), Rects::from_vec(dirt)))
}

/// A refusal of a call that was given no buffer.
fn refused(refusal: DupRefusal) -> Answer
    ensures { result ≡ Answer.Refused refusal None }
{
    Answer::Refused {
        refusal,
        buffer: None,
    }
}

/// Acquires a frame where nothing refuses it. All memory is taken before the duplicator changes.
///
/// A call of its own, since what is new has its room on the stack: a refused acquire doesn't clear it.
#[inline(never)]
fn acquire_new(alloc: Global, dup: &mut Dup, log: &Log) -> Result<Answer, AllocError>
    requires stands { Stands dup.old log.now }
    requires begins { any_begins (news log.now dup.old.memory.mark) ≡ false }
    requires granted { granted dup.old.memory log.now (tt {0}) ≡ Ok tt }
    ensures answer { IfOk result (λ a. a ≡ acquire_answer (acquire_reply dup.old.memory log.now)) }
    ensures bounded { IfOk result (λ a. IsBounded a) }
    ensures memory { OnOk result (dup.new.memory ≡ acquire_memory dup.old.memory log.now) }
    ensures err { OnErr result (dup.new ≡ dup.old) }
    ensures wants { OnErr result (IsOk (acquire_reply dup.old.memory log.now)) }
    ensures stands { Stands dup.new log.now }
{
    let news = dup.gather(log)?;
    let (moves, dirt) = lists_of(alloc, &news)?;
    let info = dup.hold(log, news);
    Ok(Answer::Frame { info, moves, dirt })
}

/// Acquires a frame.
pub(crate) fn acquire(alloc: Global, dup: &mut Dup, log: &Log) -> Result<Answer, AllocError>
    requires { Stands dup.old log.now }
    ensures answer { IfOk result (λ a. a ≡ acquire_answer (acquire_reply dup.old.memory log.now)) }
    ensures bounded { IfOk result (λ a. IsBounded a) }
    ensures memory { OnOk result (dup.new.memory ≡ acquire_memory dup.old.memory log.now) }
    ensures err { OnErr result (dup.new ≡ dup.old) }
    ensures wants { OnErr result (IsOk (acquire_reply dup.old.memory log.now)) }
    ensures stands { Stands dup.new log.now }
{
    match dup.check_new(log) {
        Ok(()) => acquire_new(alloc, dup, log),
        Err(refusal) => {
            dup.refuse(log, refusal);
            Ok(refused(refusal))
        }
    }
}

/// Releases the frame.
pub(crate) fn release(dup: &mut Dup, log: &Log) -> Answer
    requires { Stands dup.old log.now }
    ensures answer { result ≡ release_answer (release_reply dup.old.memory log.now) }
    ensures memory { dup.new.memory ≡ release_memory dup.old.memory log.now }
    ensures stands { Stands dup.new log.now }
{
    match dup.release(log) {
        Ok(()) => Answer::Released,
        Err(refusal) => refused(refusal),
    }
}

/// A buffer of this many bytes. One of none takes no memory.
fn buffer_of(alloc: Global, size: u32) -> Result<Vec<u8>, AllocError>
    ensures value { IfOk result (λ b. b.items ≡ filled_buffer size) }
    ensures wants { OnErr result (0 < size) }
{
    let mut buffer = Vec::new(alloc);
    if size > 0 {
        buffer.resize(size as usize, FILL)?;
    }
    Ok(buffer)
}

/// A buffer with what was put into it, or the refusal and the buffer.
fn in_buffer_of(answer: Result<u32, DupRefusal>, buffer: Vec<u8>) -> Answer
    ensures { result ≡ buffer_answer answer buffer.items }
{
    let bytes = Bytes::from_vec(buffer);
    match answer {
        Ok(size) => Answer::Buffer { size, bytes },
        Err(refusal) => Answer::Refused {
            refusal,
            buffer: Some(bytes),
        },
    }
}

/// The moves of the held frame, in a buffer of this many bytes.
pub(crate) fn moves(
    alloc: Global,
    dup: &mut Dup,
    log: &Log,
    size: u32,
) -> Result<Answer, AllocError>
    requires { Stands dup.old log.now }
    ensures answer { IfOk result (λ a. a
        ≡ in_buffer buffer_answer (moves_reply dup.old.memory log.now (filled_buffer size))) }
    ensures memory { OnOk result (dup.new.memory ≡ held_memory dup.old.memory log.now) }
    ensures err { OnErr result (dup.new ≡ dup.old) }
    ensures wants { OnErr result (0 < size) }
    ensures stands { Stands dup.new log.now }
{
    let mut buffer = buffer_of(alloc, size)?;
    let answer = dup.moves(log, buffer.as_mut_slice());
    Ok(in_buffer_of(answer, buffer))
}

/// The dirty rectangles of the held frame, in a buffer of this many bytes.
pub(crate) fn dirty(
    alloc: Global,
    dup: &mut Dup,
    log: &Log,
    size: u32,
) -> Result<Answer, AllocError>
    requires { Stands dup.old log.now }
    ensures answer { IfOk result (λ a. a
        ≡ in_buffer buffer_answer (dirty_reply dup.old.memory log.now (filled_buffer size))) }
    ensures memory { OnOk result (dup.new.memory ≡ held_memory dup.old.memory log.now) }
    ensures err { OnErr result (dup.new ≡ dup.old) }
    ensures wants { OnErr result (0 < size) }
    ensures stands { Stands dup.new log.now }
{
    let mut buffer = buffer_of(alloc, size)?;
    let answer = dup.dirty(log, buffer.as_mut_slice());
    Ok(in_buffer_of(answer, buffer))
}

/// What is told of the held frame's new shape, where it has one.
fn info_of_shape(dup: &Dup) -> Option<ShapeInfo>
    ensures { result ≡ held_shape_info dup.now.memory.held }
{
    match dup.new_shape() {
        None => None,
        Some(shape) => Some(shape.info()),
    }
}

/// A buffer with the shape that was put into it, or the refusal and the buffer.
fn shape_in_buffer(
    answer: Result<u32, DupRefusal>,
    shape: Option<ShapeInfo>,
    buffer: Vec<u8>,
) -> Answer
    ensures { result ≡ shape_answer shape answer buffer.items }
{
    let bytes = Bytes::from_vec(buffer);
    match answer {
        Ok(size) => Answer::ShapeBuffer { size, bytes, shape },
        Err(refusal) => Answer::Refused {
            refusal,
            buffer: Some(bytes),
        },
    }
}

/// The new shape of the held frame, in a buffer of this many bytes.
pub(crate) fn shape(
    alloc: Global,
    dup: &mut Dup,
    log: &Log,
    size: u32,
) -> Result<Answer, AllocError>
    requires { Stands dup.old log.now }
    ensures answer { IfOk result (λ a. a ≡ in_buffer (shape_answer (held_shape_info dup.old.memory.held))
        (shape_reply dup.old.memory log.now (filled_buffer size))) }
    ensures memory { OnOk result (dup.new.memory ≡ held_memory dup.old.memory log.now) }
    ensures err { OnErr result (dup.new ≡ dup.old) }
    ensures wants { OnErr result (0 < size) }
    ensures stands { Stands dup.new log.now }
{
    let mut buffer = buffer_of(alloc, size)?;
    let info = info_of_shape(dup);
    let answer = dup.shape(log, buffer.as_mut_slice());
    Ok(shape_in_buffer(answer, info, buffer))
}

/// A copy of the rows of a surface.
fn rows_of(alloc: Global, surface: &Surface) -> Result<Rows, AllocError>
    ensures { IfOk result (λ r. r ≡ rows surface.now) }
{
    let mut items = Vec::with_capacity(alloc, surface.height() as usize)?;
    for y in 0..surface.height() {
        let row = Vec::from_slice(alloc, surface.row(y))?;
        items.push(Colours::from_vec(row))?;
    }
    Ok(Rows::from_vec(items))
}

/// The rows of the acquired surface; none where no frame is held.
pub(crate) fn surface(alloc: Global, dup: &Dup, log: &Log) -> Result<Answer, AllocError>
    requires { Stands dup.now log.now }
    ensures answer { IfOk result (λ a. a ≡ Answer.Surface (surface_reply dup.now.memory log.now)) }
    ensures wants { OnErr result (IsSome dup.now.memory.held) }
{
    let _ = log;
    match dup.surface() {
        None => Ok(Answer::Surface(None)),
        Some(surface) => Ok(Answer::Surface(Some(rows_of(alloc, surface)?))),
    }
}

/// The mode at the opening.
pub(crate) fn desc(dup: &Dup, log: &Log) -> Answer
    requires { Stands dup.now log.now }
    ensures { result ≡ Answer.Desc (desc_reply dup.now.memory log.now) }
{
    let _ = log;
    Answer::Desc(dup.desc())
}
