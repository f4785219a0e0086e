//! A surface, and the set of its hidden points, brought forward by the entries that are new.
//!
//! A hidden colour never comes to be seen: what is covered is black until something is drawn over it, and
//! where it is scrolled the black goes with it. So the surface needs no picture beside it, and each
//! operation is drawn once, but for what an entry draws over that draws the whole surface.

ghost use Rattle.std.specs.Prelude.{◌≡◌, IsTrue, IfOk, OnOk};
ghost use Rattle.dd_geom.specs.Grid.{Grid, SameSize};
ghost use Rattle.dd_grid.specs.Cell.{Cell};
ghost use Rattle.dd_grid.specs.Drawing.{seen, hidden_points};
ghost use Rattle.dd_log.specs.History.{event_fits, entries_fit};
ghost use Rattle.dd_log.specs.Picture.{shown_after, shown};
ghost use Rattle.dd_dup.specs.Seen.{seen_after, seen_shown};

use crate::anew::drawn_anew;
use crate::bands::{draw_by_bands, suits_bands};
use crate::frame::Hidden;
use dd_acc::hide;
use dd_bits::Area;
use dd_grid::Surface;
use dd_log::{Entry, Event};
use dd_ops::apply_seen;
use std::alloc::AllocError;

/// Draws what is seen of an event.
fn draw_event(surface: &mut Surface, event: &Event)
    requires { IsTrue (event_fits surface.old.width surface.old.height event.now) }
    ensures drawn { surface.new ≡ seen_after surface.old event.now }
    ensures size { SameSize surface.old surface.new }
{
    match event.present() {
        None => {}
        Some(ops) => apply_seen(surface, ops),
    }
}

/// Draws what is seen of the entries, in order.
fn draw_in_order(surface: &mut Surface, entries: &[Entry])
    requires { IsTrue (entries_fit surface.old.width surface.old.height entries.now) }
    ensures drawn { surface.new ≡ seen_shown surface.old entries.now }
    ensures size { SameSize surface.old surface.new }
{
    for entry in entries {
        draw_event(surface, &entry.event);
    }
}

/// Draws what is seen of the entries: from the last one on that draws the whole surface, and band by band
/// where they do nothing but fill. It takes no memory.
pub(crate) fn draw_entries(surface: &mut Surface, entries: &[Entry])
    requires { IsTrue (entries_fit surface.old.width surface.old.height entries.now) }
    ensures drawn { (p : Grid Cell) → surface.old ≡ seen p → surface.new ≡ seen (shown p entries.now) }
    ensures size { SameSize surface.old surface.new }
{
    let w = surface.width();
    let h = surface.height();
    let entries = drawn_anew(entries, w, h);
    if suits_bands(entries, w, h) {
        draw_by_bands(surface, entries);
    } else {
        draw_in_order(surface, entries);
    }
}

/// Brings the hidden points forward by an event.
fn hide_event(hidden: &mut Hidden, event: &Event) -> Result<(), AllocError>
    requires { IsTrue (event_fits hidden.old.width hidden.old.height event.now) }
    ensures hidden { (p : Grid Cell) → hidden.old ≡ hidden_points p
        → OnOk result (hidden.new ≡ hidden_points (shown_after p event.now)) }
    ensures size { SameSize hidden.old hidden.new }
{
    match event.present() {
        None => Ok(()),
        Some(ops) => hide(hidden, ops),
    }
}

/// The hidden points after the entries, as a set of its own.
pub(crate) fn hidden_at_end(hidden: &Hidden, entries: &[Entry]) -> Result<Hidden, AllocError>
    requires { IsTrue (entries_fit hidden.now.width hidden.now.height entries.now) }
    ensures { (p : Grid Cell) → hidden.now ≡ hidden_points p
        → IfOk result (λ next. next ≡ hidden_points (shown p entries.now)) }
{
    let mut next = hidden.copy()?;
    for entry in entries {
        hide_event(&mut next, &entry.event)?;
    }
    Ok(next)
}
