//! Whole transfers: all bytes up to the end of input, and all bytes of a piece.
ghost use Rattle.std.specs.Prelude.{◌+◌, ◌<◌, ◌≤◌, length, IfOk, OnOk, OnErr, IsErrOf};
ghost use Rattle.std.specs.Io.KnownBytes.{Appends, Consumes, IsAtEnd};
ghost use Rattle.dd_io.specs.Causes.{Rose};
ghost use Rattle.dd_io.specs.Transfer.{AppendsPrefix, GivesMoreThan, GivesAtMost, ReadsAll, GivesPiece};

use crate::{Bytes, Failed, ReadUpFault, Sink, Source};
use std::alloc::Global;

/// How many bytes one read asks for.
pub const CHUNK: usize = 4096;

/// Reads the next piece of the source into a buffer with room, and lends it; `None` is the end of
/// input.
pub fn read_piece<'b, S: Source>(s: &mut S, buf: &'b mut [u8]) -> Result<Option<&'b [u8]>, Failed>
    requires { 0 < length buf.old }
    ensures gives { GivesPiece (S.left s.old) (S.left s.new) (length buf.old) result }
    ensures failed { OnErr result (Rose (S.faults s.old) (S.faults s.new)) }
    ensures later { S.faults s.old ≤ S.faults s.new }
{
    let n = s.read(buf)?;
    if n == 0 {
        return Ok(None);
    }
    Ok(Some(&buf[..n]))
}

/// Reads to the end of input, where that comes within `limit` bytes.
///
/// It has taken at most `limit + CHUNK` bytes where it answers that there are too many.
pub fn read_up_to<S: Source>(alloc: Global, s: &mut S, limit: u64) -> Result<Bytes, ReadUpFault>
    ensures within { IfOk result (λ v. length v ≤ limit) }
    ensures gives { IfOk result (λ v. Consumes (S.left s.old) (S.left s.new) v) }
    ensures end { OnOk result (IsAtEnd (S.left s.new)) }

    // More than the limit came exactly at `TooLong`.
    ensures too_long { IsErrOf result ReadUpFault.TooLong →
        GivesMoreThan limit (limit + CHUNK) (S.left s.old) (S.left s.new) }
    ensures failed_within { IsErrOf result ReadUpFault.Failed →
        GivesAtMost limit (S.left s.old) (S.left s.new) }
    ensures out_of_memory_within { IsErrOf result ReadUpFault.OutOfMemory →
        GivesAtMost limit (S.left s.old) (S.left s.new) }
    ensures told { ReadsAll (S.left s.old) limit result }

    ensures failed { IsErrOf result ReadUpFault.Failed → Rose (S.faults s.old) (S.faults s.new) }
    ensures later { S.faults s.old ≤ S.faults s.new }
{
    let mut bytes = Vec::new(alloc);
    let mut buf = [0; CHUNK];
    while let Some(piece) = read_piece(s, &mut buf)? {
        if limit - (bytes.len() as u64) < piece.len() as u64 {
            return Err(ReadUpFault::TooLong);
        }
        bytes.extend_from_slice(piece)?;
    }
    Ok(Bytes::from_vec(bytes))
}

/// Appends all of `b` to what the sink holds; where that fails, a prefix of it.
pub fn write_all<K: Sink>(k: &mut K, b: &[u8]) -> Result<(), Failed>
    ensures appends { OnOk result (Appends (K.held k.old) (K.held k.new) b.now) }
    ensures prefix { OnErr result (AppendsPrefix (K.held k.old) (K.held k.new) b.now) }
    ensures failed { OnErr result (Rose (K.faults k.old) (K.faults k.new)) }
    ensures later { K.faults k.old ≤ K.faults k.new }
{
    let mut rest = b;
    while !rest.is_empty() {
        let n = k.write(rest)?;
        rest = &rest[n..];
    }
    Ok(())
}
