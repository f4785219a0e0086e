//! The entries from the last one on that draws the whole surface: what stands before them is drawn over.

ghost use Rattle.std.specs.Prelude.{◌≡◌, ℕ, IsTrue};
ghost use Rattle.dd_geom.specs.Grid.{Grid};
ghost use Rattle.dd_log.specs.History.{entries_fit};
ghost use Rattle.dd_dup.specs.Seen.{spans_all, is_all, draws_all, some_draws_all, event_draws_all, seen_shown};

use dd_geom::Rect;
use dd_log::{Entry, Event};
use dd_ops::Op;

/// Whether a span has all of the first `length` places; `to` is the one after its last.
fn spans_all(from: i32, to: i32, length: u32) -> bool
    ensures { result ≡ spans_all from to length }
{
    from <= 0 && i64::from(length) <= i64::from(to)
}

/// Whether a rectangle has all points of a surface of this size.
fn is_all(r: Rect, w: u32, h: u32) -> bool
    ensures { result ≡ is_all w h r }
{
    spans_all(r.left, r.right, w) && spans_all(r.top, r.bottom, h)
}

/// Whether an operation draws each point of the surface with a colour of its own.
fn draws_all(op: &Op, w: u32, h: u32) -> bool
    ensures { result ≡ draws_all w h op.now }
{
    match op {
        Op::Fill { rect, .. } | Op::Blit { rect, .. } | Op::Cover { rect, .. } => is_all(
            *rect, w, h,
        ),
        Op::Scroll { .. } => false,
    }
}

/// Whether one of the operations does.
fn some_draws_all(ops: &[Op], w: u32, h: u32) -> bool
    ensures { result ≡ some_draws_all w h ops.now }
{
    ops.iter().any(|op| draws_all(op, w, h))
}

/// Whether the event's present does.
fn event_draws_all(event: &Event, w: u32, h: u32) -> bool
    ensures { result ≡ event_draws_all w h event.now }
{
    match event.present() {
        None => false,
        Some(ops) => some_draws_all(ops.as_slice(), w, h),
    }
}

/// The entries from the last one on that draws the whole surface; all of them where none does. What is
/// seen after them is what is seen after all.
pub(crate) fn drawn_anew(entries: &[Entry], w: u32, h: u32) -> &[Entry]
    ensures drawn { (s : Grid ℕ) → s.width ≡ w → s.height ≡ h
        → seen_shown s result.now ≡ seen_shown s entries.now }
    ensures fit { IsTrue (entries_fit w h entries.now) → IsTrue (entries_fit w h result.now) }
{
    for k in (0..entries.len()).rev() {
        if event_draws_all(&entries[k].event, w, h) {
            return &entries[k..];
        }
    }
    entries
}
