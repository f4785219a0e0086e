//! A text that is written whole.

ghost use Rattle.std.specs.Prelude.{◌≤◌};
ghost use Rattle.dd_prog.specs.Exchange.{side};
ghost use Rattle.dd_prog.specs.Whole.{WroteText};

use crate::status::Status;
use dd_io::{Sink, write_all};

/// Writes a text, and tells how that ended.
pub(crate) fn write_text<K: Sink>(text: &[u8], sink: &mut K) -> Status
    ensures wrote { WroteText (side K.held K.faults sink.old sink.new) text.now result }
    ensures later { K.faults sink.old ≤ K.faults sink.new }
{
    match write_all(sink, text) {
        Ok(()) => Status::Done,
        Err(_) => Status::WriteFault,
    }
}
