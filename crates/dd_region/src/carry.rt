//! Rows of other rows, added in bulk: their runs are copied together, and not looked at.

ghost use Rattle.std.specs.Prelude.{◌≡◌, ℕ, ◌+◌, ◌-◌, ◌^◌, ◌<◌, ◌≤◌, ◌++◌, length, map, All, OnOk};
ghost use Rattle.std.specs.List.{AllWithin};
ghost use Rattle.dd_region.specs.Rows.{depth, AreRows, ArePassed};
ghost use Rattle.dd_region.specs.Carry.{moved_band, IsInSpan, IsMovable};
ghost use Rattle.dd_region.specs.Sweep.{HasRowsOf};

use crate::rows::{Band, Rows};
use std::alloc::AllocError;

/// Places among the runs of all bands: those from `start` to `end - 1`.
#[derive(Clone, Copy, Debug)]
struct Span {
    start: usize,
    end: usize,
}

/// Where the runs of the bands from `first` to `last` lie. Bands are written with their runs one
/// behind the other, so no other band has runs between; but nothing rests on it.
fn span_of(old: &Rows, first: usize, last: usize) -> Span
    requires rows { AreRows old.now }
    requires order { first ≤ last }
    requires within { last < length old.now.bands.items }
    ensures order { result.start ≤ result.end }
    ensures within { result.end ≤ length old.now.runs.items }
    ensures all { AllWithin (IsInSpan result) old.now.bands.items first (last + 1) }
{
    let band = old.bands[first];
    let mut start = band.start;
    let mut end = band.end;
    let mut next = first + 1;
    while next <= last {
        let band = old.bands[next];
        start = start.min(band.start);
        end = end.max(band.end);
        next += 1;
    }
    Span { start, end }
}

/// A band whose runs stand elsewhere: what was run `from` is run `to`.
fn moved(band: Band, from: usize, to: usize) -> Band
    requires { IsMovable from to band }
    ensures { result ≡ moved_band from to band }
{
    Band {
        bottom: band.bottom,
        start: band.start - from + to,
        end: band.end - from + to,
    }
}

/// Adds bands whose runs stand elsewhere: what was run `from` is run `to`.
fn push_bands(new: &mut Vec<Band>, bands: &[Band], from: usize, to: usize) -> Result<(), AllocError>
    requires { All (IsMovable from to) bands.now }
    ensures { OnOk result (new.new.items ≡ new.old.items ++ map (moved_band from to) bands.now) }
{
    new.reserve(bands.len())?;
    for band in bands {
        new.push_reserved(moved(*band, from, to));
    }
    Ok(())
}

/// Adds the rows from `from` to `to - 1` as they are in other rows. None of their bands before the
/// band `band` has row `from`.
pub fn carry(
    new: &mut Rows,
    old: &Rows,
    band: usize,
    from: usize,
    to: usize,
) -> Result<(), AllocError>
    requires rows { AreRows old.now }
    requires new { AreRows new.old }
    requires order { from < to }
    requires deep { to ≤ depth old.now }
    requires start { depth new.old ≡ from }
    requires passed { ArePassed old.now band from }
    ensures { OnOk result (HasRowsOf old.now new.old to new.new) }
{
    let first = old.find(from, band);
    let last = old.find(to - 1, first);
    let span = span_of(old, first, last);
    let base = new.runs.len();
    new.runs.extend_from_slice(&old.runs[span.start..span.end])?;
    push_bands(&mut new.bands, &old.bands[first..last], span.start, base)?;
    let end = old.bands[last];
    let cut = Band {
        bottom: to,
        start: end.start,
        end: end.end,
    };
    new.bands.push(moved(cut, span.start, base))?;
    Ok(())
}
