//! The picture that a record shows after one of its frames.

ghost use Rattle.std.specs.Prelude.{◌≡◌, ◌+◌, ◌-◌, ◌^◌, ◌≤◌, ◌<◌, ◌++◌, ℕ, List, length, None, OnErr};
ghost use Rattle.dd_io.specs.Causes.{Rose};
ghost use Rattle.dd_io.specs.Transfer.{GivesPiece};
ghost use Rattle.dd_view.specs.Player.{new_reader, bytes_come, reader_of, finish_answer};
ghost use Rattle.dd_prog.specs.Commands.{view_work};
ghost use Rattle.dd_prog.specs.Exchange.{side, IfTold};
ghost use Rattle.dd_prog.specs.Outcome.{Ends, FitsStatus, status_of_input};
ghost use Rattle.dd_prog.specs.Viewing.{Fed, FedAll, Pictures, Pictured, Texts};

use crate::command::Command;
use crate::fault::InputFault;
use crate::output::write_text;
use crate::reading::MAX_RECORD_BYTES;
use crate::status::Status;
use dd_io::{Bytes, CHUNK, Failed, Sink, Source, read_piece};
use dd_record::RecordFault;
use dd_view::{Player, ppm};
use std::alloc::Global;

/// How many bytes one read asks for, far from the limit.
const PIECE: usize = 65_536;

/// Reads the next piece into a buffer with room, and lends it: at most `CHUNK` bytes more than are
/// left up to the limit. `None` is the end of input.
fn next_piece<'b, S: Source>(
    source: &mut S,
    buf: &'b mut [u8],
    left: u64,
) -> Result<Option<&'b [u8]>, Failed>
    requires room { 0 < length buf.old }
    requires left { left ≤ MAX_RECORD_BYTES }
    ensures gives { GivesPiece (S.left source.old) (S.left source.new) (left + CHUNK) result }
    ensures failed { OnErr result (Rose (S.faults source.old) (S.faults source.new)) }
    ensures later { S.faults source.old ≤ S.faults source.new }
{
    let room = buf.len().min(left as usize + CHUNK);
    read_piece(source, &mut buf[..room])
}

/// Feeds a piece to a player that found no fault, and tells the first fault.
fn feed_next(player: &mut Player, fault: Option<RecordFault>, piece: &[u8]) -> Option<RecordFault>
    requires { fault ≡ None → bytes_come player.old + length piece.now ≤ 2 ^ 36 }
    ensures { (asked : ℕ) (b : List ℕ) → Fed asked b fault player.old → Fed asked (b ++ piece.now) result player.new }
{
    if fault.is_some() {
        return fault;
    }
    player.feed(piece).err()
}

/// Feeds the input to its end, piece by piece, and tells the first fault that was found in it.
fn feed_all<S: Source>(
    player: &mut Player,
    source: &mut S,
    buf: &mut [u8],
) -> Result<Option<RecordFault>, InputFault>
    requires asked { 1 ≤ player.old.asked }
    requires new { player.old ≡ new_reader player.old.asked }
    requires room { 0 < length buf.old }
    ensures fed { FedAll player.old.asked (side S.left S.faults source.old source.new) result player.new }
    ensures later { S.faults source.old ≤ S.faults source.new }
{
    let mut fault = None;
    let mut size = 0;
    while let Some(piece) = next_piece(source, buf, MAX_RECORD_BYTES - size)? {
        let more = piece.len() as u64;
        if MAX_RECORD_BYTES - size < more {
            return Err(InputFault::TooLong);
        }
        size += more;
        fault = feed_next(player, fault, piece);
    }
    Ok(fault)
}

/// The text of the picture that is shown after the frame that is asked for, where so many came.
fn picture_text(alloc: Global, player: &Player) -> Result<Bytes, InputFault>
    ensures { Pictures player.now.played.shown result }
{
    let Some(surface) = player.shown() else {
        return Err(InputFault::BadInput);
    };
    let Some(mode) = player.mode() else {
        return Err(InputFault::BadInput);
    };
    Ok(ppm(alloc, surface, mode)?)
}

/// The text of the picture of a player that was fed the whole input, where it is a record.
fn record_text(
    alloc: Global,
    player: &mut Player,
    fault: Option<RecordFault>,
) -> Result<Bytes, InputFault>
    ensures { (asked : ℕ) (b : List ℕ) → Fed asked b fault player.old → Pictured asked b result }
{
    if let Some(fault) = fault {
        return Err(InputFault::from(fault));
    }
    player.finish()?;
    picture_text(alloc, player)
}

/// Reads the input to its end, and makes the text of the picture that it shows after a frame.
fn shown_text<S: Source>(alloc: Global, frame: u32, source: &mut S) -> Result<Bytes, InputFault>
    requires { 1 ≤ frame }
    ensures texts { Texts (view_work frame) (side S.left S.faults source.old source.new) result }
    ensures later { S.faults source.old ≤ S.faults source.new }
{
    let mut player = Player::new(alloc, frame)?;
    let mut buf = vec![in alloc; 0u8; PIECE].map_err(|_| InputFault::OutOfMemory)?;
    let fault = feed_all(&mut player, source, buf.as_mut_slice())?;
    record_text(alloc, &mut player, fault)
}

/// Why no record was read, as a status.
fn status_of_input(frame: u32, fault: InputFault) -> Status
    ensures { result ≡ status_of_input (view_work frame) fault }
{
    let _ = frame;
    match fault {
        InputFault::TooLong => Status::TooLong,
        InputFault::BadInput => Status::BadRecord,
        InputFault::Failed => Status::ReadFault,
        InputFault::OutOfMemory => Status::OutOfMemory,
    }
}

/// Reads a record, and writes the picture that it shows after a frame.
pub(crate) fn view<S: Source, K: Sink>(
    alloc: Global,
    frame: u32,
    source: &mut S,
    sink: &mut K,
) -> Status
    requires { 1 ≤ frame }
    ensures outcome { Ends (view_work frame) (record {
      source = side S.left S.faults source.old source.new;
      sink = side K.held K.faults sink.old sink.new;
    }) result }
    ensures told { IfTold (side S.left S.faults source.old source.new) (FitsStatus (view_work frame) result) }
    ensures later_read { S.faults source.old ≤ S.faults source.new }
    ensures later_write { K.faults sink.old ≤ K.faults sink.new }
{
    match shown_text(alloc, frame, source) {
        Err(fault) => status_of_input(frame, fault),
        Ok(text) => write_text(text.as_slice(), sink),
    }
}
