//! The whole program over its devices: a command done, and a status named.

ghost use Rattle.std.specs.Prelude.{◌≡◌, ◌≤◌, IfOk, IfErr, map, string_bytes};
ghost use Rattle.dd_prog.specs.Commands.{command_of};
ghost use Rattle.dd_prog.specs.Exchange.{side, TookOrFailed};
ghost use Rattle.dd_prog.specs.Outcome.{Does};
ghost use Rattle.dd_prog.specs.Status.{line_of};
ghost use Rattle.dd_prog.specs.Words.{status_of_words};

use crate::arguments::WordsFault;
use crate::command::plain;
use crate::status::Status;
use dd_io::{Sink, Source, write_all};
use std::alloc::Global;

/// Names a status other than Done, in a line. A line that can't be written is lost.
fn name_status<N: Sink>(status: Status, names: &mut N)
    ensures named { TookOrFailed (side N.held N.faults names.old names.new) (line_of status) }
    ensures later { N.faults names.old ≤ N.faults names.new }
{
    let _ = write_all(names, status.line().as_bytes());
}

/// Does the command that the words are, and names on a device of its own how it ended: a line with
/// the status's name, and nothing at Done.
pub fn report<S: Source, K: Sink, N: Sink>(
    alloc: Global,
    words: Result<Vec<String>, WordsFault>,
    source: &mut S,
    sink: &mut K,
    names: &mut N,
) -> Status
    // No words were had, and nothing was read or written.
    ensures fault { IfErr words (λ fault.
        (result ≡ status_of_words fault) × (source.new ≡ source.old) × (sink.new ≡ sink.old)) }
    // As `plain` says.
    ensures does { IfOk words (λ w. Does (command_of (map string_bytes w.items)) (record {
      source = side S.left S.faults source.old source.new;
      sink = side K.held K.faults sink.old sink.new;
    }) result) }
    ensures named { TookOrFailed (side N.held N.faults names.old names.new) (line_of result) }
    ensures later_read { S.faults source.old ≤ S.faults source.new }
    ensures later_write { K.faults sink.old ≤ K.faults sink.new }
    ensures later_names { N.faults names.old ≤ N.faults names.new }
{
    let status = match words {
        Ok(words) => plain(alloc, &words, source, sink),
        Err(fault) => fault.status(),
    };
    name_status(status, names);
    status
}
