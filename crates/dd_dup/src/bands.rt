//! Fills drawn on a surface band by band: of a band's rows all that is filled there is filled before the
//! next band is begun, so that they stay near the processor however often they are filled.

ghost use Rattle.std.specs.Prelude.{◌≡◌, ◌<◌, ◌≤◌, ◌/◌, ◌&&◌, nat_lt, nat_le, int_lt, pos, IsTrue, is_some};
ghost use Rattle.dd_geom.specs.declared.rect.TheConstants.{MAX_SIDE};
ghost use Rattle.dd_geom.specs.Rect.{is_inside};
ghost use Rattle.dd_geom.specs.Grid.{SameSize};
ghost use Rattle.dd_grid.specs.declared.cell.TheConstants.{COLOURS};
ghost use Rattle.dd_ops.specs.Operations.{fits, all_fit};
ghost use Rattle.dd_log.specs.History.{event_fits, entries_fit};
ghost use Rattle.dd_dup.specs.declared.bands.TheConstants.{LEAST_PART};
ghost use Rattle.dd_dup.specs.Seen.{seen_shown};
ghost use Rattle.dd_dup.specs.Filling.{fill_in, are_fills, event_fills, entries_fill, IsWhole, has_row, rect_in, in_rows};
ghost use Rattle.dd_dup.specs.Filling.{fill_at, op_at, ops_at, event_at, entries_at};

use dd_geom::{Rect, point_count};
use dd_grid::Surface;
use dd_log::{Entry, Event};
use dd_ops::Op;

/// Rows of a surface: the first of them, and the one below the last.
#[derive(Clone, Copy, Debug)]
struct Rows {
    top: i32,
    bottom: i32,
}

/// How many points the rows of a band have, where one row has no more.
const BAND_POINTS: u32 = 131_072;

/// A surface's points by the fewest that an entry fills, of entries that are drawn band by band: to go
/// over an entry for each band costs little beside filling so many.
const LEAST_PART: u64 = 128;

/// The rectangle that an operation fills, and the colour that is seen there; `None` where it draws an
/// image, or scrolls.
fn fill_of(op: &Op) -> Option<(Rect, u32)>
    ensures { result ≡ fill_in op.now }
{
    match op {
        Op::Fill { rect, colour } => Some((*rect, *colour)),
        Op::Cover { rect, .. } => Some((*rect, 0)),
        Op::Blit { .. } | Op::Scroll { .. } => None,
    }
}

/// What of a rectangle stands in some rows; its top isn't above its bottom where nothing does.
fn part_of(rect: Rect, rows: Rows) -> Rect
    ensures { result ≡ rect_in rect rows }
{
    Rect {
        top: rect.top.max(rows.top),
        bottom: rect.bottom.min(rows.bottom),
        ..rect
    }
}

/// Whether a part has rows at all.
fn has_rows(part: Rect) -> bool
    ensures { result ≡ int_lt part.top part.bottom }
{
    part.top < part.bottom
}

/// Fills what of a rectangle stands in some rows.
fn fill_part(surface: &mut Surface, rows: Rows, rect: Rect, colour: u32)
    requires inside { IsTrue (is_inside rect surface.old.width surface.old.height) }
    requires colour { colour < COLOURS }
    ensures drawn { IsWhole surface.old
        → surface.new ≡ in_rows surface.old (has_row rows) (fill_at rect colour) }
    ensures size { SameSize surface.old surface.new }
{
    let part = part_of(rect, rows);
    if has_rows(part) {
        surface.fill(part, colour);
    }
}

/// Draws what of an operation stands in some rows, where it is a fill.
fn draw_part(surface: &mut Surface, rows: Rows, op: &Op)
    requires { IsTrue (fits surface.old.width surface.old.height op.now) }
    ensures drawn { IsWhole surface.old → surface.new ≡ in_rows surface.old (has_row rows) (op_at op.now) }
    ensures size { SameSize surface.old surface.new }
{
    match fill_of(op) {
        None => {}
        Some((rect, colour)) => fill_part(surface, rows, rect, colour),
    }
}

/// The same of some operations, in order.
fn draw_parts(surface: &mut Surface, rows: Rows, ops: &[Op])
    requires { IsTrue (all_fit surface.old.width surface.old.height ops.now) }
    ensures drawn { IsWhole surface.old → surface.new ≡ in_rows surface.old (has_row rows) (ops_at ops.now) }
    ensures size { SameSize surface.old surface.new }
{
    for op in ops {
        draw_part(surface, rows, op);
    }
}

/// The same of an event's present.
fn draw_event_part(surface: &mut Surface, rows: Rows, event: &Event)
    requires { IsTrue (event_fits surface.old.width surface.old.height event.now) }
    ensures drawn { IsWhole surface.old → surface.new ≡ in_rows surface.old (has_row rows) (event_at event.now) }
    ensures size { SameSize surface.old surface.new }
{
    match event.present() {
        None => {}
        Some(ops) => draw_parts(surface, rows, ops.as_slice()),
    }
}

/// The same of some entries, in order.
fn draw_band(surface: &mut Surface, rows: Rows, entries: &[Entry])
    requires { IsTrue (entries_fit surface.old.width surface.old.height entries.now) }
    ensures drawn { IsWhole surface.old
        → surface.new ≡ in_rows surface.old (has_row rows) (entries_at entries.now) }
    ensures size { SameSize surface.old surface.new }
{
    for entry in entries {
        draw_event_part(surface, rows, &entry.event);
    }
}

/// How many points the operations fill, each for itself; `None` where one isn't a fill.
fn filled_by_ops(ops: &[Op]) -> Option<u64>
    ensures { is_some result ≡ are_fills ops.now }
{
    let mut points: u64 = 0;
    for op in ops {
        let (rect, _) = fill_of(op)?;
        points = points.saturating_add(point_count(rect) as u64);
    }
    Some(points)
}

/// The same of an event's present.
fn filled_by_event(event: &Event) -> Option<u64>
    ensures { is_some result ≡ event_fills event.now }
{
    match event.present() {
        None => Some(0),
        Some(ops) => filled_by_ops(ops.as_slice()),
    }
}

/// The same of some entries.
fn filled_by(entries: &[Entry]) -> Option<u64>
    ensures { is_some result ≡ entries_fill entries.now }
{
    let mut points: u64 = 0;
    for entry in entries {
        points = points.saturating_add(filled_by_event(&entry.event)?);
    }
    Some(points)
}

/// Whether so many points of a surface are so many, filled by `count` entries, that to go over these for
/// each band costs little beside.
fn is_much(points: u64, count: usize, of_surface: u64) -> bool
    ensures { result ≡ (nat_lt 1 count && nat_le (of_surface / LEAST_PART) (points / count)) }
{
    count > 1 && of_surface / LEAST_PART <= points / count as u64
}

/// Whether the entries do nothing but fill, and enough that bands serve.
pub(crate) fn suits_bands(entries: &[Entry], w: u32, h: u32) -> bool
    ensures { IsTrue result → IsTrue (entries_fill entries.now) }
{
    match filled_by(entries) {
        None => false,
        Some(points) => is_much(points, entries.len(), u64::from(w) * u64::from(h)),
    }
}

/// How many rows a band has.
fn band_height(w: u32) -> u32
    requires { 1 ≤ w }
    ensures { 1 ≤ result }
{
    (BAND_POINTS / w).max(1)
}

/// The rows of a surface from one on to another.
fn rows_between(top: u32, bottom: u32) -> Rows
    requires top { top ≤ MAX_SIDE }
    requires bottom { bottom ≤ MAX_SIDE }
    ensures { result ≡ record { top = pos top; bottom = pos bottom } }
{
    Rows {
        top: top as i32,
        bottom: bottom as i32,
    }
}

/// Draws entries that do nothing but fill, band by band. It takes no memory.
pub(crate) fn draw_by_bands(surface: &mut Surface, entries: &[Entry])
    requires fit { IsTrue (entries_fit surface.old.width surface.old.height entries.now) }
    requires fill { IsTrue (entries_fill entries.now) }
    ensures drawn { surface.new ≡ seen_shown surface.old entries.now }
    ensures size { SameSize surface.old surface.new }
{
    let height = surface.height();
    let step = band_height(surface.width());
    let mut top = 0;
    while top < height {
        let bottom = top + step.min(height - top);
        draw_band(surface, rows_between(top, bottom), entries);
        top = bottom;
    }
}
