//! The commands, and the top call over a source and a sink.

ghost use Rattle.std.specs.Prelude.{◌≡◌, ◌↔◌, ◌≤◌, None, IfSome, map, string_bytes};
ghost use Rattle.dd_prog.specs.Commands.{command_of, task, IsCounted};
ghost use Rattle.dd_prog.specs.Exchange.{side};
ghost use Rattle.dd_prog.specs.Outcome.{TaskEnds, TaskFits, TaskCompletes};
ghost use Rattle.dd_prog.specs.Telling.{ToldByTrace};

use crate::command_line::command_of;
use crate::making::{write_counts, write_script};
use crate::recording::record;
use crate::replay::replay;
use crate::status::Status;
use crate::viewing::view;
use dd_io::{OutOfMemory, Sink, Source};
use std::alloc::Global;

/// What the program can do.
#[derive(Clone, Copy, Debug, PartialEq, Eq)]
pub enum Command {
    /// Reads a script, and writes one line for the answer of each of its steps.
    Replay,
    /// Reads a script, and writes the record of one of its clients, counted from 1.
    Record { client: u32 },
    /// Reads a record, and writes the picture that is shown after one of its frames, counted from 1.
    View { frame: u32 },
    /// Writes the script that is made from a seed.
    Gen { seed: u32 },
    /// Runs the script that is made from a seed, and writes one line of counts.
    Sum { seed: u32 },
}

/// The highest number of a frame that can be asked for.
pub const MAX_FRAME: u32 = 1_048_576;

/// Does one command.
fn perform<S: Source, K: Sink>(
    alloc: Global,
    command: Command,
    source: &mut S,
    sink: &mut K,
) -> Status
    requires { IsCounted command }
    ensures outcome { TaskEnds (task command) (record {
      source = side S.left S.faults source.old source.new;
      sink = side K.held K.faults sink.old sink.new;
    }) result }
    ensures told { TaskFits (task command) (side S.left S.faults source.old source.new) result }
    ensures later_read { S.faults source.old ≤ S.faults source.new }
    ensures later_write { K.faults sink.old ≤ K.faults sink.new }
{
    match command {
        Command::Replay => replay(alloc, source, sink),
        Command::Record { client } => record(alloc, client, source, sink),
        Command::View { frame } => view(alloc, frame, source, sink),
        Command::Gen { seed } => write_script(alloc, seed, sink),
        Command::Sum { seed } => write_counts(alloc, seed, sink),
    }
}

/// Does the command that the words are. It waits for nobody and always returns.
///
/// `replay` reads a script of at most 16,777,216 bytes and writes one answer line for each of its
/// steps. `record` with `--client` reads a script likewise and writes the record of that client.
/// `view` with `--frame` reads a record of at most 1,073,741,824 bytes and writes the picture that
/// it shows after that frame. `gen` and `sum` with `--seed` read nothing: `gen` writes the script
/// that is made of the seed, `sum` the counts of the answers to it.
pub fn plain<S: Source, K: Sink>(
    alloc: Global,
    words: &Vec<String>,
    source: &mut S,
    sink: &mut K,
) -> Status
    // The words are no command, and nothing was read or written.
    ensures words { (result ≡ Status.BadWords) ↔ (command_of (map string_bytes words.now.items) ≡ None) }
    ensures idle { result ≡ Status.BadWords → (source.new ≡ source.old) × (sink.new ≡ sink.old) }
    // Done: the input was read to its end, and what was written is the text of the command's work on
    // the input that it is, nothing else; or the command reads nothing, and its words tell what was
    // written. The other statuses come only where their causes stood.
    ensures outcome { IfSome (command_of (map string_bytes words.now.items)) (λ c. TaskEnds (task c) (record {
      source = side S.left S.faults source.old source.new;
      sink = side K.held K.faults sink.old sink.new;
    }) result) }
    // Of a source that tells its bytes, each status says what they are.
    ensures told { IfSome (command_of (map string_bytes words.now.items)) (λ c.
        TaskFits (task c) (side S.left S.faults source.old source.new) result) }
    ensures complete { IfSome (command_of (map string_bytes words.now.items)) (λ c.
        TaskCompletes (task c) (record {
          source = side S.left S.faults source.old source.new;
          sink = side K.held K.faults sink.old sink.new;
        }) result) }
    // What was written is told by the trace of one script, of which each step is right: each frame,
    // each surface and each refusal.
    ensures headline { result ≡ Status.Done → IfSome (command_of (map string_bytes words.now.items)) (λ c.
        ToldByTrace c (record {
          source = side S.left S.faults source.old source.new;
          sink = side K.held K.faults sink.old sink.new;
        })) }
    ensures later_read { S.faults source.old ≤ S.faults source.new }
    ensures later_write { K.faults sink.old ≤ K.faults sink.new }
{
    match command_of(alloc, words) {
        Ok(Some(command)) => perform(alloc, command, source, sink),
        Ok(None) => Status::BadWords,
        Err(OutOfMemory) => Status::OutOfMemory,
    }
}
