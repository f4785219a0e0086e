//! The causes for which an event isn't appended that lie in the event and the mode.

ghost use Rattle.std.specs.Prelude.{◌≡◌, ◌≤◌, ◌<◌, length, IfSome};
ghost use Rattle.dd_ops.specs.Operations.{first_unfit as unfit_place};
ghost use Rattle.dd_ops.specs.declared.lists.TheConstants.{MAX_OPS};
ghost use Rattle.dd_log.specs.History.{bad_rect, bad_draw, bad_event, verdict};

use crate::events::{Draw, Event};
use crate::refusal::LogRefusal;
use dd_modes::{Mode, Modes};
use dd_ops::{Op, fits};

/// The place of the first operation that doesn't fit a surface of this size.
fn first_unfit(ops: &[Op], w: u32, h: u32) -> Option<usize>
    ensures value { result ≡ unfit_place w h ops.now }
    ensures within { IfSome result (λ k. k < length ops.now) }
{
    ops.iter().position(|op| !fits(op, w, h))
}

/// The cause of an operation that doesn't fit a surface of this size.
fn check(ops: &[Op], w: u32, h: u32) -> Result<(), LogRefusal>
    requires { length ops.now ≤ MAX_OPS }
    ensures { result ≡ verdict (bad_rect w h ops.now) }
{
    match first_unfit(ops, w, h) {
        None => Ok(()),
        Some(op) => Err(LogRefusal::BadRect { op: op as u32 }),
    }
}

/// The cause of a drawing by itself, in a mode that is one of some modes.
fn check_draw(modes: &Modes, mode: Mode, draw: &Draw) -> Result<(), LogRefusal>
    ensures { result ≡ verdict (bad_draw modes.now mode draw.now) }
{
    match draw {
        Draw::Present(ops) => check(ops.as_slice(), mode.width, mode.height),
        Draw::Mode { index } => {
            if (*index as usize) < modes.as_slice().len() {
                Ok(())
            } else {
                Err(LogRefusal::BadMode)
            }
        }
        Draw::Pointer { .. }
        | Draw::Shape(_)
        | Draw::Switch { .. }
        | Draw::Disconnect
        | Draw::Reconnect => Ok(()),
    }
}

/// The cause of an event by itself, in a mode that is one of some modes.
pub(crate) fn check_event(modes: &Modes, mode: Mode, event: &Event) -> Result<(), LogRefusal>
    ensures { result ≡ verdict (bad_event modes.now mode event.now) }
{
    match event {
        Event::Draw(draw) => check_draw(modes, mode, draw),
        Event::Opened { .. } | Event::Closed { .. } | Event::End => Ok(()),
    }
}
