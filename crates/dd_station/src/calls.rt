//! What a client is answered that asks its duplicator something.

ghost use Rattle.std.specs.Prelude.{◌≡◌, IsTrue, IfOk, OnOk, OnErr};
ghost use Rattle.dd_dup.specs.Reply.{IsBounded};
ghost use Rattle.dd_station.specs.Run.{client_reply, asking_takes_memory};
ghost use Rattle.dd_dup.specs.Stands.{memory, MayStand};

use dd_calls::{Answer, DupCall};
use dd_dup::Dup;
use dd_log::Log;
use std::alloc::AllocError;

/// The answer to a call of a client, which may have no duplicator.
pub(crate) fn answer_of(
    dup: &mut Option<Dup>,
    log: &Log,
    call: DupCall,
) -> Result<Answer, AllocError>
    requires { MayStand dup.old log.now }
    ensures answer { IfOk result (λ a. a ≡ (client_reply call (memory dup.old) log.now).0) }
    ensures bounded { IfOk result (λ a. IsBounded a) }
    ensures memory { OnOk result (memory dup.new ≡ (client_reply call (memory dup.old) log.now).1) }
    ensures err { OnErr result (dup.new ≡ dup.old) }
    ensures wants { OnErr result (IsTrue (asking_takes_memory call (memory dup.old) log.now)) }
    ensures stands { MayStand dup.new log.now }
{
    match dup {
        None => Ok(Answer::NoDuplicator),
        Some(dup) => dup.ask(log, call),
    }
}
