//! Whether a duplicator may be opened, and whether it may be closed.
#![tactic(auto)]

ghost use Rattle.std.specs.Prelude.{◌≡◌, IsTrue, IfOk};
ghost use Rattle.dd_log.specs.declared.events.Event.TheVariants.{Opened};
ghost use Rattle.dd_log.specs.Desk.{finds_slot};
ghost use Rattle.dd_log.specs.History.{desk};
ghost use Rattle.dd_table.specs.Opening.{opening, closing, is_away, is_denied, is_duplicating, OpeningsFit, ClosingsFit};

pub use dd_calls::{CloseRefusal, OpenRefusal};
use dd_log::Log;

/// Whether the session is disconnected, or the list has ended.
fn is_away(log: &Log) -> bool
    ensures { result ≡ is_away log.now }
{
    !log.connected() || log.ended()
}

/// Whether the desktop is secure, and the application isn't privileged.
fn is_denied(log: &Log, app: u32) -> bool
    ensures { result ≡ is_denied log.now app }
{
    log.secure() && !log.privileged(app)
}

/// Whether a slot is open for the application.
fn is_duplicating(log: &Log, app: u32) -> bool
    ensures { result ≡ is_duplicating log.now app }
{
    log.slot_of(app).is_some()
}

/// The slot, 0 to 3, that a duplicator of an application would have: the least that is free.
///
/// The causes of a refusal, the first that stands: the session is disconnected or the list has
/// ended; the desktop is secure and the application isn't privileged; the application has an open
/// duplicator; four are open; the list is full. It takes no memory.
///
/// An opening in the slot that is given is one that the list may have.
pub fn may_open(log: &Log, app: u32) -> Result<u32, OpenRefusal>
    ensures value { result ≡ opening log.now app }
    ensures fits { IfOk result (λ slot. IsTrue (finds_slot (desk log.now).slots (Opened slot app))) }
{
    if is_away(log) {
        return Err(OpenRefusal::SessionDisconnected);
    }
    if is_denied(log, app) {
        return Err(OpenRefusal::AccessDenied);
    }
    if is_duplicating(log, app) {
        return Err(OpenRefusal::AlreadyDuplicating);
    }
    let Some(slot) = log.free_slot() else {
        return Err(OpenRefusal::NotAvailable);
    };
    if log.full() {
        return Err(OpenRefusal::Full);
    }
    Ok(slot)
}

/// The slot of a client's duplicator, where it has one, if it may be closed.
///
/// The causes of a refusal, the first that stands: the client has none; the list has ended; the
/// list is full. It takes no memory.
pub fn may_close(log: &Log, slot: Option<u32>) -> Result<u32, CloseRefusal>
    ensures { result ≡ closing log.now slot }
{
    let Some(slot) = slot else {
        return Err(CloseRefusal::NoDuplicator);
    };
    if log.ended() {
        return Err(CloseRefusal::Ended);
    }
    if log.full() {
        return Err(CloseRefusal::Full);
    }
    Ok(slot)
}

/// An opening that is granted is an entry that the list may have.
pub fn openings_fit()
    ensures { OpeningsFit }
{}

/// A closing that is granted, of a slot that is open, is an entry that the list may have.
pub fn closings_fit()
    ensures { ClosingsFit }
{}
