//! The parts of a record, written to a sink. No call takes memory.

ghost use Rattle.std.specs.Prelude.{◌≡◌, ◌≤◌, ◌++◌, length, option_map, IsSome, OnOk, OnErr};
ghost use Rattle.std.specs.Io.KnownBytes.{Appends};
ghost use Rattle.std.specs.List.{flat_map};
ghost use Rattle.dd_io.specs.Causes.{Rose};
ghost use Rattle.dd_io.specs.Transfer.{AppendsPrefix};
ghost use Rattle.dd_geom.specs.Bytes.{move_bytes, rect_bytes};
ghost use Rattle.dd_acc.specs.declared.interval.TheConstants.{MAX_MOVES};
ghost use Rattle.dd_coal.specs.declared.coalescing.TheConstants.{MAX_RECTS};
ghost use Rattle.dd_record.specs.Frames.{held_bytes, pixels_in};
ghost use Rattle.dd_record.specs.Sinks.{change, Writes};
ghost use Rattle.dd_record.specs.Writing.{magic, opening_bytes, head_bytes, shape_head_bytes, shape_bytes, frame_bytes, end_bytes};

use crate::layout::{FRAME_HEAD_BYTES, OPENING_BYTES, SHAPE_HEAD_BYTES};
use crate::pages::{write_bytes, write_pixels};
use byteorder::{ByteOrder, LittleEndian};
use dd_acc::MAX_MOVES;
use dd_calls::FrameInfo;
use dd_coal::MAX_RECTS;
use dd_dup::Dup;
use dd_geom::{MOVE_BYTES, Move, RECT_BYTES, Rect};
use dd_grid::Surface;
use dd_io::{Failed, Sink, write_all};
use dd_meta::{MOVES_BUFFER, RECTS_BUFFER, put_moves, put_rects};
use dd_modes::Mode;
use dd_pointer::Shape;

/// Appends the four bytes that a record begins with, `DDR1`; where the sink fails, the first of them.
#[tactic(auto, unfolding(crate::specs::Writing::magic))]
pub fn write_magic<K: Sink>(k: &mut K) -> Result<(), Failed>
    ensures appends { OnOk result (Appends (K.held k.old) (K.held k.new) magic) }
    ensures prefix { OnErr result (AppendsPrefix (K.held k.old) (K.held k.new) magic) }
    ensures failed { OnErr result (Rose (K.faults k.old) (K.faults k.new)) }
    ensures later { K.faults k.old ≤ K.faults k.new }
{
    write_all(k, b"DDR1")
}

/// The bytes of an opening chunk.
#[tactic(auto, unfolding(crate::specs::Writing::opening_bytes))]
fn opening_bytes(mode: Mode) -> [u8; 13]
    ensures { result ≡ opening_bytes mode }
{
    let numbers = [mode.width, mode.height, mode.rotation.number()];
    let mut bytes = [1; OPENING_BYTES];
    LittleEndian::write_u32_into(&numbers, &mut bytes[1..]);
    bytes
}

/// Appends an opening chunk, 13 bytes; where the sink fails, the first of them.
pub fn write_opening<K: Sink>(k: &mut K, mode: Mode) -> Result<(), Failed>
    ensures appends { OnOk result (Appends (K.held k.old) (K.held k.new) (opening_bytes mode)) }
    ensures prefix { OnErr result (AppendsPrefix (K.held k.old) (K.held k.new) (opening_bytes mode)) }
    ensures failed { OnErr result (Rose (K.faults k.old) (K.faults k.new)) }
    ensures later { K.faults k.old ≤ K.faults k.new }
{
    write_all(k, &opening_bytes(mode))
}

/// Appends the End chunk, one byte; where the sink fails, nothing.
#[tactic(auto, unfolding(crate::specs::Writing::end_bytes))]
pub fn write_end<K: Sink>(k: &mut K) -> Result<(), Failed>
    ensures appends { OnOk result (Appends (K.held k.old) (K.held k.new) end_bytes) }
    ensures prefix { OnErr result (AppendsPrefix (K.held k.old) (K.held k.new) end_bytes) }
    ensures failed { OnErr result (Rose (K.faults k.old) (K.faults k.new)) }
    ensures later { K.faults k.old ≤ K.faults k.new }
{
    write_all(k, &[0])
}

/// The bytes of a frame chunk before its moves.
#[tactic(auto, unfolding(crate::specs::Writing::head_bytes))]
fn head_bytes(info: FrameInfo, moves: u8, rects: u8) -> [u8; 42]
    ensures { result ≡ head_bytes info moves rects }
{
    let position = info.pointer.position;
    let mut bytes = [0; FRAME_HEAD_BYTES];
    bytes[0] = 2;
    LittleEndian::write_u64_into(&[info.last_present, info.last_mouse], &mut bytes[1..17]);
    LittleEndian::write_u32(&mut bytes[17..], info.accumulated);
    bytes[21] = u8::from(info.coalesced);
    bytes[22] = u8::from(info.protected);
    LittleEndian::write_i32_into(&[position.x, position.y], &mut bytes[23..31]);
    bytes[31] = u8::from(info.pointer.visible);
    LittleEndian::write_u32_into(&[info.meta_size, info.shape_size], &mut bytes[32..40]);
    bytes[40] = moves;
    bytes[41] = rects;
    bytes
}

/// Appends the bytes of a frame chunk before its moves.
fn write_head<K: Sink>(k: &mut K, info: FrameInfo, moves: u8, rects: u8) -> Result<(), Failed>
    ensures { Writes (change K.held K.faults k.old k.new) (head_bytes info moves rects) result }
{
    write_bytes(k, &head_bytes(info, moves, rects))
}

/// Appends the bytes of at most 16 moves.
fn write_moves<K: Sink>(k: &mut K, moves: &[Move]) -> Result<(), Failed>
    requires { length moves.now ≤ MAX_MOVES }
    ensures { Writes (change K.held K.faults k.old k.new) (flat_map move_bytes moves.now) result }
{
    let mut bytes = [0; MOVES_BUFFER as usize];
    let size = put_moves(moves, &mut bytes).unwrap_or(0);
    write_bytes(k, &bytes[..size as usize])
}

/// Appends the bytes of at most 64 rectangles.
fn write_rects<K: Sink>(k: &mut K, rects: &[Rect]) -> Result<(), Failed>
    requires { length rects.now ≤ MAX_RECTS }
    ensures { Writes (change K.held K.faults k.old k.new) (flat_map rect_bytes rects.now) result }
{
    let mut bytes = [0; RECTS_BUFFER as usize];
    let size = put_rects(rects, &mut bytes).unwrap_or(0);
    write_bytes(k, &bytes[..size as usize])
}

/// The bytes of a shape before its own.
#[tactic(auto, unfolding(crate::specs::Writing::shape_head_bytes))]
fn shape_head_bytes(shape: &Shape) -> [u8; 20]
    ensures { result ≡ shape_head_bytes shape.now }
{
    let info = shape.info();
    let mut bytes = [0; SHAPE_HEAD_BYTES];
    LittleEndian::write_u32_into(&[info.kind, info.width, info.height], &mut bytes[..12]);
    LittleEndian::write_i32_into(&[info.hot.x, info.hot.y], &mut bytes[12..]);
    bytes
}

/// Appends the bytes of a shape before its own.
fn write_shape_head<K: Sink>(k: &mut K, shape: &Shape) -> Result<(), Failed>
    ensures { Writes (change K.held K.faults k.old k.new) (shape_head_bytes shape.now) result }
{
    write_bytes(k, &shape_head_bytes(shape))
}

/// Appends a shape.
fn write_whole_shape<K: Sink>(k: &mut K, shape: &Shape) -> Result<(), Failed>
    ensures { Writes (change K.held K.faults k.old k.new) (shape_head_bytes shape.now ++ shape.now.bytes) result }
{
    write_shape_head(k, shape)?;
    write_bytes(k, shape.bytes())
}

/// Appends a new shape, where there is one.
fn write_shape<K: Sink>(k: &mut K, shape: Option<&Shape>) -> Result<(), Failed>
    ensures { Writes (change K.held K.faults k.old k.new) (shape_bytes (option_map (λ s. s.now) shape.entry)) result }
{
    match shape {
        None => Ok(()),
        Some(shape) => write_whole_shape(k, shape),
    }
}

/// Appends a frame chunk of these parts.
#[tactic(auto, unfolding(crate::specs::Writing::frame_bytes))]
pub(crate) fn write_parts<K: Sink>(
    k: &mut K,
    info: FrameInfo,
    moves: &[Move],
    dirt: &[Rect],
    surface: &Surface,
    shape: Option<&Shape>,
) -> Result<(), Failed>
    requires moves { length moves.now ≤ MAX_MOVES }
    requires dirt { length dirt.now ≤ MAX_RECTS }
    ensures { Writes (change K.held K.faults k.old k.new) (frame_bytes (record {
      info = info;
      moves = moves.now;
      dirt = dirt.now;
      pixels = pixels_in surface.now dirt.now;
      shape = option_map (λ s. s.now) shape.entry;
    })) result }
{
    write_head(k, info, moves.len() as u8, dirt.len() as u8)?;
    write_moves(k, moves)?;
    write_rects(k, dirt)?;
    write_pixels(k, surface, dirt)?;
    write_shape(k, shape)
}

/// Appends a frame chunk of the frame that a duplicator holds, with the colours of its surface in the
/// frame's dirty rectangles; where the sink fails, the first of its bytes. A point of a rectangle that
/// isn't on the surface is written black.
pub fn write_frame<K: Sink>(k: &mut K, dup: &Dup) -> Result<(), Failed>
    requires { IsSome dup.now.memory.held }
    ensures appends { OnOk result (Appends (K.held k.old) (K.held k.new) (held_bytes dup.now)) }
    ensures prefix { OnErr result (AppendsPrefix (K.held k.old) (K.held k.new) (held_bytes dup.now)) }
    ensures failed { OnErr result (Rose (K.faults k.old) (K.faults k.new)) }
    ensures later { K.faults k.old ≤ K.faults k.new }
{
    let (Some(info), Some(surface)) = (dup.info(), dup.surface()) else {
        return Ok(());
    };
    write_parts(
        k,
        info,
        dup.move_list(),
        dup.dirt_list(),
        surface,
        dup.new_shape(),
    )
}
