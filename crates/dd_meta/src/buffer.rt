//! Bytes put at the front of a caller's buffer, or the number that it would need.

ghost use Rattle.std.specs.Prelude.{◌≡◌, ◌*◌, ◌≤◌, ◌<◌, ◌^◌, ◌++◌, length, drop, nat_le, if◌then◌else◌};
ghost use Rattle.dd_geom.specs.declared.rect.TheConstants.{MOVE_BYTES, RECT_BYTES};
ghost use Rattle.dd_geom.specs.Bytes.{move_bytes, rect_bytes};
ghost use Rattle.dd_meta.specs.Buffer.{bytes_of_moves, bytes_of_rects, put};

use dd_geom::{MOVE_BYTES, Move, RECT_BYTES, Rect, move_bytes, rect_bytes};

/// The bytes of a buffer that has room for the moves of any frame, of which there are at most 16.
pub const MOVES_BUFFER: u32 = 384;

/// The bytes of a buffer that has room for the dirty rectangles of any frame, of which there are at
/// most 64.
pub const RECTS_BUFFER: u32 = 1024;

/// The most bytes of a frame's moves and dirty rectangles together.
pub const MAX_METADATA: u32 = 1408;

/// The number of bytes, where a buffer has room for them; else, as an error, the number that is
/// required.
fn room(size: usize, buffer: &[u8]) -> Result<u32, u32>
    requires { size < 2 ^ 32 }
    ensures { result ≡ (if nat_le size (length buffer.now) then Ok size else Err size) }
{
    if size <= buffer.len() {
        Ok(size as u32)
    } else {
        Err(size as u32)
    }
}

/// Writes the bytes of moves, one after another, to the front of a buffer that has room for them.
fn write_moves(moves: &[Move], buffer: &mut [u8])
    requires { MOVE_BYTES * length moves.now ≤ length buffer.old }
    ensures { buffer.new
        ≡ bytes_of_moves moves.now ++ drop (MOVE_BYTES * length moves.now) buffer.old }
{
    for i in 0..moves.len() {
        let start = i * MOVE_BYTES as usize;
        buffer[start..start + MOVE_BYTES as usize].copy_from_slice(&move_bytes(moves[i]));
    }
}

/// Writes the bytes of rectangles, one after another, to the front of a buffer that has room for
/// them.
fn write_rects(rects: &[Rect], buffer: &mut [u8])
    requires { RECT_BYTES * length rects.now ≤ length buffer.old }
    ensures { buffer.new
        ≡ bytes_of_rects rects.now ++ drop (RECT_BYTES * length rects.now) buffer.old }
{
    for i in 0..rects.len() {
        let start = i * RECT_BYTES as usize;
        buffer[start..start + RECT_BYTES as usize].copy_from_slice(&rect_bytes(rects[i]));
    }
}

/// Puts the bytes of moves, 24 each, at the buffer's front, and gives their number; the rest of the
/// buffer stays. `Err` tells the number of bytes that is required, exactly where the buffer is
/// shorter, and then all of it stays.
#[tactic(auto, using(crate::proofs::Sizes::moves_size))]
pub fn put_moves(moves: &[Move], buffer: &mut [u8]) -> Result<u32, u32>
    requires { MOVE_BYTES * length moves.now < 2 ^ 32 }
    ensures { (result, buffer.new) ≡ put (bytes_of_moves moves.now) buffer.old }
{
    let size = room(moves.len() * MOVE_BYTES as usize, buffer)?;
    write_moves(moves, buffer);
    Ok(size)
}

/// Puts the bytes of rectangles, 16 each, at the buffer's front, and gives their number; the rest of
/// the buffer stays. `Err` tells the number of bytes that is required, exactly where the buffer is
/// shorter, and then all of it stays.
#[tactic(auto, using(crate::proofs::Sizes::rects_size))]
pub fn put_rects(rects: &[Rect], buffer: &mut [u8]) -> Result<u32, u32>
    requires { RECT_BYTES * length rects.now < 2 ^ 32 }
    ensures { (result, buffer.new) ≡ put (bytes_of_rects rects.now) buffer.old }
{
    let size = room(rects.len() * RECT_BYTES as usize, buffer)?;
    write_rects(rects, buffer);
    Ok(size)
}

/// Puts bytes at the buffer's front, and gives their number; the rest of the buffer stays. `Err`
/// tells the number of bytes that is required, exactly where the buffer is shorter, and then all of
/// it stays.
pub fn put_bytes(bytes: &[u8], buffer: &mut [u8]) -> Result<u32, u32>
    requires { length bytes.now < 2 ^ 32 }
    ensures { (result, buffer.new) ≡ put bytes.now buffer.old }
{
    let size = room(bytes.len(), buffer)?;
    buffer[..bytes.len()].copy_from_slice(bytes);
    Ok(size)
}
