//! What is new: what the entries from the marks on tell of the picture and of the pointer.

ghost use Rattle.std.specs.Prelude.{◌≡◌, ◌≤◌, IsTrue, IfOk, length, option_map};
ghost use Rattle.dd_geom.specs.Grid.{Grid};
ghost use Rattle.dd_geom.specs.Rect.{IsSize};
ghost use Rattle.dd_grid.specs.Cell.{Cell};
ghost use Rattle.dd_grid.specs.Drawing.{hidden_points};
ghost use Rattle.dd_log.specs.History.{event_fits, entries_fit, present_of};
ghost use Rattle.dd_log.specs.Picture.{shown};
ghost use Rattle.dd_log.specs.declared.events.TheConstants.{MAX_CAPACITY};
ghost use Rattle.dd_dup.specs.News.{picture_news, pointer_since};
ghost use Rattle.dd_dup.specs.Walk.{gathered_next, gathered, news_from as news_told};

use crate::forward::hidden_at_end;
use crate::frame::{Hidden, PictureNews, PointerNews};
use dd_acc::Acc;
use dd_log::{Entry, Event, Log};
use dd_modes::Mode;
use dd_pointer::Shape;
use dd_region::Bands;
use std::alloc::{AllocError, Global};

/// The set of dirty points that a duplicator accumulates.
type Dirty = Bands;

/// One event more: a present is added, and no other event takes memory.
fn add_event(acc: Acc<Dirty>, event: &Event) -> Result<Acc<Dirty>, AllocError>
    requires fit { IsTrue (event_fits acc.area.width acc.area.height event.now) }
    requires few { acc.frames ≤ MAX_CAPACITY }
    ensures { IfOk result (λ next. next ≡ gathered_next acc (present_of event.now)) }
{
    match event.present() {
        None => Ok(acc),
        Some(ops) => acc.add(ops),
    }
}

/// Gathers the presents among the entries.
fn gather(alloc: Global, mode: Mode, entries: &[Entry]) -> Result<Acc<Dirty>, AllocError>
    requires size { IsSize mode.width mode.height }
    requires fit { IsTrue (entries_fit mode.width mode.height entries.now) }
    requires few { length entries.now ≤ MAX_CAPACITY }
    ensures { IfOk result (λ acc. acc ≡ gathered mode.width mode.height entries.now) }
{
    let mut acc = Acc::start(alloc, mode.width, mode.height)?;
    for entry in entries {
        acc = add_event(acc, &entry.event)?;
    }
    Ok(acc)
}

/// What was gathered, as news, with the event number of the last present and the points that are
/// hidden then.
fn news_from(acc: Acc<Dirty>, last_present: u64, hidden: Hidden) -> PictureNews
    ensures { result ≡ news_told last_present hidden acc }
{
    let accumulated = acc.frames();
    let coalesced = acc.coalesced();
    let (moves, dirt) = acc.into_lists();
    PictureNews {
        accumulated,
        last_present,
        coalesced,
        moves,
        dirt,
        hidden,
    }
}

/// What the entries tell of the picture, where the last present among them has this event number.
/// `hidden` are the points that were hidden before them.
pub(crate) fn tell(
    alloc: Global,
    mode: Mode,
    hidden: &Hidden,
    last_present: u64,
    entries: &[Entry],
) -> Result<PictureNews, AllocError>
    requires size { IsSize mode.width mode.height }
    requires fit { IsTrue (entries_fit mode.width mode.height entries.now) }
    requires width { hidden.now.width ≡ mode.width }
    requires height { hidden.now.height ≡ mode.height }
    requires few { length entries.now ≤ MAX_CAPACITY }
    ensures { (p : Grid Cell) → hidden.now ≡ hidden_points p
        → IfOk result (λ n. n ≡ picture_news mode.width mode.height last_present
        (hidden_points (shown p entries.now)) entries.now) }
{
    let acc = gather(alloc, mode, entries)?;
    let after = hidden_at_end(hidden, entries)?;
    Ok(news_from(acc, last_present, after))
}

/// A copy of a shape, where there is one.
fn copy_of(shape: Option<&Shape>) -> Result<Option<Shape>, AllocError>
    ensures { IfOk result (λ copy. copy ≡ option_map (λ s. s.now) shape.entry) }
{
    match shape {
        None => Ok(None),
        Some(shape) => Ok(Some(shape.copy()?)),
    }
}

/// What the entries from a mark on tell of the pointer.
pub(crate) fn point(log: &Log, mark: u64) -> Result<PointerNews, AllocError>
    ensures { IfOk result (λ n. n ≡ pointer_since log.now mark) }
{
    Ok(PointerNews {
        last_mouse: log.last_pointed(mark),
        pointer: log.pointer(),
        shape: copy_of(log.shape_since(mark))?,
    })
}
