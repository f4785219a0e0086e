//! The pixels of a frame's dirty rectangles on their way out: they are kept until there is a page of
//! them, and written then.

ghost use Rattle.std.specs.Prelude.{◌≡◌, ◌≤◌, ◌+◌, [], OnOk, slice_index_or, nat_lt, if◌then◌else◌};
ghost use Rattle.std.specs.List.{flat_map};
ghost use Rattle.arrayvec.specs.ArrayVec.{array_vec_len};
ghost use Rattle.dd_geom.specs.Grid.{row};
ghost use Rattle.dd_geom.specs.Rect.{sides};
ghost use Rattle.dd_record.specs.Frames.{pixels_in};
ghost use Rattle.dd_record.specs.Pages.{row_at, run_bytes, block_bytes};
ghost use Rattle.dd_record.specs.Sinks.{change, Writes, Adds};
ghost use Rattle.dd_record.specs.Writing.{pixel_bytes};

use crate::layout::PIXEL_BYTES;
use arrayvec::ArrayVec;
use dd_geom::{Rect, Sides, sides_of};
use dd_grid::Surface;
use dd_io::{Failed, Sink, write_all};

/// The most bytes of pixels that are kept: those of 1,024 pixels.
const PAGE: usize = 4096;

type Page = ArrayVec<u8, PAGE>;

/// Appends bytes.
pub(crate) fn write_bytes<K: Sink>(k: &mut K, bytes: &[u8]) -> Result<(), Failed>
    ensures { Writes (change K.held K.faults k.old k.new) bytes.now result }
{
    write_all(k, bytes)
}

/// Writes the bytes that are kept.
fn write_kept<K: Sink>(kept: &mut Page, k: &mut K) -> Result<(), Failed>
    ensures wrote { Writes (change K.held K.faults k.old k.new) kept.old.items result }
    ensures none { OnOk result (kept.new.items ≡ []) }
{
    write_bytes(k, kept.as_slice())?;
    kept.clear();
    Ok(())
}

/// The bytes of a pixel: blue, green, red and 255.
#[tactic(auto, unfolding(crate::specs::Writing::pixel_bytes))]
fn pixel_bytes(colour: u32) -> [u8; 4]
    ensures { result ≡ pixel_bytes colour }
{
    let bytes = colour.to_le_bytes();
    [bytes[0], bytes[1], bytes[2], 255]
}

/// Keeps a pixel where none is kept.
fn keep_first(kept: &mut Page, pixel: &[u8; 4])
    requires { kept.old.items ≡ [] }
    ensures { kept.new.items ≡ pixel.now }
{
    let _ = kept.try_extend_from_slice(pixel);
}

/// Writes the bytes that are kept, and keeps a pixel.
fn turn_page<K: Sink>(kept: &mut Page, pixel: &[u8; 4], k: &mut K) -> Result<(), Failed>
    ensures { Adds (change K.held K.faults k.old k.new) kept.old.items kept.new.items pixel.now result }
{
    write_kept(kept, k)?;
    keep_first(kept, pixel);
    Ok(())
}

/// Keeps a pixel; where there is no room for it, those that are kept are written before.
fn put_pixel<K: Sink>(kept: &mut Page, colour: u32, k: &mut K) -> Result<(), Failed>
    ensures { Adds (change K.held K.faults k.old k.new) kept.old.items kept.new.items (pixel_bytes colour) result }
{
    let pixel = pixel_bytes(colour);
    if kept.try_extend_from_slice(&pixel).is_ok() {
        return Ok(());
    }
    turn_page(kept, &pixel, k)
}

/// The colour at a place of a row; behind its end it is black.
fn colour_in(row: &[u32], x: usize) -> u32
    ensures { result ≡ slice_index_or row.now x 0 }
{
    row.get(x).copied().unwrap_or(0)
}

/// Keeps the pixels of a run of a row.
fn put_run<K: Sink>(
    kept: &mut Page,
    row: &[u32],
    left: usize,
    right: usize,
    k: &mut K,
) -> Result<(), Failed>
    ensures { Adds (change K.held K.faults k.old k.new) kept.old.items kept.new.items
        (run_bytes row.now left right) result }
{
    for x in left..right {
        put_pixel(kept, colour_in(row, x), k)?;
    }
    Ok(())
}

/// A row of a surface; below its last one, a row of nothing.
fn row_at(surface: &Surface, y: usize) -> &[u32]
    ensures { result.now ≡ row_at surface.now y }
{
    if y < surface.height() as usize {
        surface.row(y as u32)
    } else {
        &[]
    }
}

/// Keeps the pixels between four sides.
fn put_block<K: Sink>(
    kept: &mut Page,
    surface: &Surface,
    sides: Sides,
    k: &mut K,
) -> Result<(), Failed>
    ensures { Adds (change K.held K.faults k.old k.new) kept.old.items kept.new.items
        (block_bytes surface.now sides) result }
{
    for y in sides.top..sides.bottom {
        put_run(kept, row_at(surface, y), sides.left, sides.right, k)?;
    }
    Ok(())
}

/// Keeps the pixels of some rectangles.
fn put_blocks<K: Sink>(
    kept: &mut Page,
    surface: &Surface,
    rects: &[Rect],
    k: &mut K,
) -> Result<(), Failed>
    ensures { Adds (change K.held K.faults k.old k.new) kept.old.items kept.new.items
        (flat_map (λ r. block_bytes surface.now (sides r)) rects.now) result }
{
    for rect in rects {
        put_block(kept, surface, sides_of(*rect), k)?;
    }
    Ok(())
}

/// Appends the pixels of some rectangles, one rectangle after another, row by row.
pub(crate) fn write_pixels<K: Sink>(
    k: &mut K,
    surface: &Surface,
    rects: &[Rect],
) -> Result<(), Failed>
    ensures { Writes (change K.held K.faults k.old k.new)
        (flat_map pixel_bytes (pixels_in surface.now rects.now)) result }
{
    let mut kept = Page::new();
    put_blocks(&mut kept, surface, rects, k)?;
    write_kept(&mut kept, k)
}
