//! The closing of a duplicator.

ghost use Rattle.std.specs.Prelude.{◌≡◌, ◌+◌, ◌<◌, None, IsTrue, length};
ghost use Rattle.dd_log.specs.Desk.{finds_slot};
ghost use Rattle.dd_log.specs.History.{desk, last_step, refusal, with_entry};
ghost use Rattle.dd_log.specs.declared.events.TheConstants.{MAX_ACTORS};

use dd_log::{Entry, Event, Log};

/// Closes the duplicator in an open slot, where the list has room for it, and gives the event number.
pub(crate) fn close(log: &mut Log, slot: u32, actor: u32, step: u32) -> u64
    requires actor { actor < MAX_ACTORS }
    requires step { last_step log.old.entries actor < step }
    requires slot { IsTrue (finds_slot (desk log.old).slots (Event.Closed slot)) }
    requires allowed { refusal log.old (Event.Closed slot) ≡ None }
    ensures entry { result ≡ length log.old.entries + 1 }
    ensures list { log.new ≡ with_entry log.old (record { actor = actor; step = step; event = Event.Closed slot }) }
{
    let entry = log.len() + 1;
    let event = Event::Closed { slot };
    match log.append(Entry { actor, step, event }) {
        Ok(()) => entry,
        Err(_) => unreachable!(),
    }
}
