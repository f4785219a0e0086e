//! Lines on their way out: short ones are kept until there is a piece worth a write.

ghost use Rattle.std.specs.Prelude.{◌≡◌, ◌++◌, ◌≤◌, [], OnOk, Err, if◌then◌else◌};
ghost use Rattle.dd_prog.specs.Exchange.{side};
ghost use Rattle.dd_prog.specs.Outcome.{WritesText};
ghost use Rattle.dd_prog.specs.Keeping.{Adds};

use crate::fault::RunFault;
use dd_io::{Sink, write_all};

/// The most bytes that are kept.
const PIECE: usize = 65_536;

fn write_bytes<K: Sink>(bytes: &[u8], sink: &mut K) -> Result<(), RunFault>
    ensures wrote { WritesText (side K.held K.faults sink.old sink.new) bytes.now result }
    ensures later { K.faults sink.old ≤ K.faults sink.new }
{
    write_all(sink, bytes)?;
    Ok(())
}

/// Writes the bytes that are kept.
pub(crate) fn write_kept<K: Sink>(kept: &mut Vec<u8>, sink: &mut K) -> Result<(), RunFault>
    ensures wrote { WritesText (side K.held K.faults sink.old sink.new) kept.old.items result }
    ensures none { OnOk result (kept.new.items ≡ []) }
    ensures later { K.faults sink.old ≤ K.faults sink.new }
{
    write_bytes(kept.as_slice(), sink)?;
    kept.clear();
    Ok(())
}

/// Keeps a line too, where it fits and there is memory for it.
fn keep(kept: &mut Vec<u8>, line: &[u8]) -> bool
    ensures { kept.new.items ≡ if result then kept.old.items ++ line.now else kept.old.items }
{
    line.len() <= PIECE.saturating_sub(kept.len()) && kept.extend_from_slice(line).is_ok()
}

/// Keeps a line, or writes it after those that are kept.
pub(crate) fn put_line<K: Sink>(
    kept: &mut Vec<u8>,
    line: &[u8],
    sink: &mut K,
) -> Result<(), RunFault>
    ensures adds { Adds (side K.held K.faults sink.old sink.new) kept.old.items kept.new.items line.now result }
    ensures later { K.faults sink.old ≤ K.faults sink.new }
{
    if keep(kept, line) {
        return Ok(());
    }
    write_kept(kept, sink)?;
    write_bytes(line, sink)
}

/// Writes the bytes that are kept, since there is no memory to go on; says why no more was written.
pub(crate) fn stop<K: Sink>(kept: &mut Vec<u8>, sink: &mut K) -> RunFault
    ensures wrote { WritesText (side K.held K.faults sink.old sink.new) kept.old.items (Err result) }
    ensures later { K.faults sink.old ≤ K.faults sink.new }
{
    match write_kept(kept, sink) {
        Ok(()) => RunFault::OutOfMemory,
        Err(fault) => fault,
    }
}
