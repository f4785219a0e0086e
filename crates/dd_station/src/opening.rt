//! The opening of a duplicator.

ghost use Rattle.std.specs.Prelude.{◌≡◌, ◌<◌, IsOk, IfOk, OnErr};
ghost use Rattle.dd_log.specs.History.{last_step};
ghost use Rattle.dd_log.specs.declared.events.TheConstants.{MAX_ACTORS};
ghost use Rattle.dd_table.specs.Opening.{opening as opening_of};
ghost use Rattle.dd_station.specs.Opening.{IsAttempt};

use dd_calls::OpenRefusal;
use dd_dup::Dup;
use dd_log::{Entry, Event, Log};
use dd_table::may_open;
use std::alloc::{AllocError, Global};

/// How an opening went.
#[derive(Debug, Drop)]
pub enum Attempt {
    Made { entry: u64, slot: u32, dup: Dup },
    Refused(OpenRefusal),
}

/// Opens a duplicator for an application, where the list allows it. All memory is taken before the
/// list changes, and a refusal takes none.
pub(crate) fn open(
    alloc: Global,
    log: &mut Log,
    app: u32,
    actor: u32,
    step: u32,
) -> Result<Attempt, AllocError>
    requires actor { actor < MAX_ACTORS }
    requires step { last_step log.old.entries actor < step }
    ensures attempt { IfOk result (λ a. IsAttempt a log.old log.new app actor step) }
    ensures err { OnErr result (log.new ≡ log.old) }
    ensures wants { OnErr result (IsOk (opening_of log.old app)) }
{
    let slot = match may_open(log, app) {
        Ok(slot) => slot,
        Err(cause) => return Ok(Attempt::Refused(cause)),
    };
    let at = log.len();
    let dup = Dup::start(alloc, log, at)?;
    let event = Event::Opened { slot, app };
    match log.append(Entry { actor, step, event }) {
        Ok(()) => Ok(Attempt::Made {
            entry: at + 1,
            slot,
            dup,
        }),
        Err(_) => unreachable!(),
    }
}
