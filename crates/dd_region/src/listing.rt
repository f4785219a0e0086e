//! The rectangles of bands.

ghost use Rattle.std.specs.Prelude.{◌≡◌, ℕ, ◌≤◌, ◌<◌, ◌++◌, OnOk, map, All};
ghost use Rattle.dd_region.specs.Runs.{IsRow};
ghost use Rattle.dd_region.specs.Rows.{row_at, depth, AreRows, ArePassed};
ghost use Rattle.dd_region.specs.Listing.{run_rect, IsSameTo};

use crate::rows::{Row, Rows};
use crate::run::{Run, same_runs};
use dd_geom::{MAX_SIDE, Rect};
use std::alloc::AllocError;

/// The first row below row `y` that has other runs, or the height; row `y` is `first`.
pub fn same_to(rows: &Rows, height: usize, y: usize, first: Row<'_>) -> usize
    requires rows { AreRows rows.now }
    requires height { height ≡ depth rows.now }
    requires row { y < height }
    requires runs { first.runs.now ≡ row_at rows.now y }
    requires first { y < first.bottom }
    requires within { first.bottom ≤ height }
    requires same { (z : ℕ) → y ≤ z → z < first.bottom → row_at rows.now z ≡ row_at rows.now y }
    requires passed { ArePassed rows.now first.band y }
    ensures { IsSameTo rows.now y result }
{
    let mut bottom = first.bottom;
    let mut band = first.band;
    while bottom < height {
        let next = rows.at(bottom, band);
        if !same_runs(next.runs, first.runs) {
            return bottom;
        }
        bottom = next.bottom;
        band = next.band;
    }
    bottom
}

/// A run as a rectangle of the rows from `top` to `bottom - 1`.
fn rect_of(run: Run, top: usize, bottom: usize) -> Rect
    requires left { run.left ≤ MAX_SIDE }
    requires right { run.right ≤ MAX_SIDE }
    requires top { top ≤ MAX_SIDE }
    requires bottom { bottom ≤ MAX_SIDE }
    ensures { result ≡ run_rect top bottom run }
{
    Rect {
        left: run.left as i32,
        top: top as i32,
        right: run.right as i32,
        bottom: bottom as i32,
    }
}

/// Appends the rectangle of each run, in the rows from `top` to `bottom - 1`.
pub fn push_rects(
    out: &mut Vec<Rect>,
    runs: &[Run],
    top: usize,
    bottom: usize,
) -> Result<(), AllocError>
    requires row { IsRow runs.now }
    requires right { All (λ r. r.right ≤ MAX_SIDE) runs.now }
    requires top { top ≤ MAX_SIDE }
    requires bottom { bottom ≤ MAX_SIDE }
    ensures { OnOk result (out.new.items ≡ out.old.items ++ map (run_rect top bottom) runs.now) }
{
    for run in runs {
        out.push(rect_of(*run, top, bottom))?;
    }
    Ok(())
}
