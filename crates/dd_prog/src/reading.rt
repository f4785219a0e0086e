//! The script that comes in.

ghost use Rattle.std.specs.Prelude.{◌≤◌, ◌<◌, ◌-◌, ◌^◌, length, IfOk};
ghost use Rattle.dd_script_read.specs.Script.{IsRunnable};
ghost use Rattle.dd_prog.specs.Commands.{replay_work};
ghost use Rattle.dd_prog.specs.Exchange.{side, IfTold};
ghost use Rattle.dd_prog.specs.Outcome.{ReadsInput, FitsRead};

use crate::command::Command;
use crate::fault::InputFault;
use dd_calls::Script;
use dd_io::{Source, read_up_to};
use dd_script_read::read_steps;
use std::alloc::Global;

/// The most bytes of a script.
pub const MAX_SCRIPT_BYTES: u64 = 16_777_216;

/// The most bytes of a record.
pub const MAX_RECORD_BYTES: u64 = 1_073_741_824;

/// Reads the input to its end, and the script that it is: it has fewer steps than the input bytes.
pub(crate) fn read_script<S: Source>(alloc: Global, source: &mut S) -> Result<Script, InputFault>
    ensures reads { ReadsInput replay_work (side S.left S.faults source.old source.new) result }
    ensures whole { IfOk result (λ s. IsRunnable s) }
    ensures count { IfOk result (λ s. length s.steps < 2 ^ 32 - 1) }
    ensures told { IfTold (side S.left S.faults source.old source.new) (FitsRead replay_work result) }
    ensures later { S.faults source.old ≤ S.faults source.new }
{
    let bytes = read_up_to(alloc, source, MAX_SCRIPT_BYTES)?;
    Ok(read_steps(alloc, bytes.as_slice())?)
}
