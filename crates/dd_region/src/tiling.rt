//! Bands rounded to tiles: one row of tiles after another.

ghost use Rattle.std.specs.Prelude.{◌≡◌, ℕ, ◌+◌, ◌*◌, ◌/◌, ◌^◌, ◌≤◌, ◌<◌, ◌||◌, length, slice_index_or, All, OnOk, IfOk};
ghost use Rattle.std.specs.Bool.{OnTrue, OnFalse};
ghost use Rattle.dd_region.specs.declared.run.Run.{Run};
ghost use Rattle.dd_region.specs.Runs.{in_run, in_runs, IsRow};
ghost use Rattle.dd_region.specs.Rows.{row_at, depth, AreRows, ArePassed, AreWithin};
ghost use Rattle.dd_region.specs.Tiling.{tile_columns, columns_between, IsUnited, IsTilesEnd, HasTiles};

use crate::rows::Rows;
use crate::run::{Run, push_run};
use std::alloc::AllocError;

/// A run as wide as the tiles that it reaches, cut at the row's right side.
fn round(run: Run, side: usize, width: usize) -> Run
    requires side { 1 ≤ side }
    requires some { run.left < run.right }
    requires within { run.right ≤ width }
    requires fits { width + side < 2 ^ 64 }
    ensures columns { (x : ℕ) → in_run result x ≡ tile_columns side width (in_run run) x }
    ensures some { result.left < result.right }
    ensures left { result.left ≡ run.left / side * side }
{
    let last = (run.right - 1) / side * side;
    Run {
        left: run.left / side * side,
        right: (last + side).min(width),
    }
}

/// Makes a row of the rounded runs of another.
fn round_runs(row: &mut Vec<Run>, runs: &[Run], side: usize, width: usize) -> Result<(), AllocError>
    requires side { 1 ≤ side }
    requires runs { IsRow runs.now }
    requires within { All (λ r. r.right ≤ width) runs.now }
    requires fits { width + side < 2 ^ 64 }
    ensures columns { OnOk result ((x : ℕ) →
        in_runs row.new.items x ≡ tile_columns side width (in_runs runs.now) x) }
    ensures row { OnOk result (IsRow row.new.items) }
{
    row.clear();
    for run in runs {
        push_run(row, round(*run, side, width))?;
    }
    Ok(())
}

/// How many runs of two rows are done with.
#[derive(Clone, Copy, Debug)]
struct Places {
    first: usize,
    second: usize,
}

/// Whether the next run of the first row stands before that of the second. One row has a next run.
fn comes_first(first: &[Run], second: &[Run], places: Places) -> bool
    requires first { places.first ≤ length first.now }
    requires second { places.second ≤ length second.now }
    requires some { places.first + places.second < length first.now + length second.now }
    ensures first { OnTrue result (places.first < length first.now) }
    ensures before { OnTrue result (places.second < length second.now → (d : Run)
        → (slice_index_or first.now places.first d).left
        ≤ (slice_index_or second.now places.second d).left) }
    ensures second { OnFalse result (places.second < length second.now) }
    ensures after { OnFalse result (places.first < length first.now → (d : Run)
        → (slice_index_or second.now places.second d).left
        ≤ (slice_index_or first.now places.first d).left) }
{
    if places.first == first.len() {
        return false;
    }
    if places.second == second.len() {
        return true;
    }
    first[places.first].left <= second[places.second].left
}

/// Adds the next run of two rows to the row that is made of both.
fn unite_next(
    row: &mut Vec<Run>,
    first: &[Run],
    second: &[Run],
    places: Places,
) -> Result<Places, AllocError>
    requires first { IsRow first.now }
    requires second { IsRow second.now }
    requires row { IsUnited first.now second.now places.first places.second row.old.items }
    requires some { places.first + places.second < length first.now + length second.now }
    ensures row { IfOk result (λ next.
        IsUnited first.now second.now next.first next.second row.new.items) }
    ensures one { IfOk result (λ next.
        next.first + next.second ≡ places.first + places.second + 1) }
{
    if comes_first(first, second, places) {
        push_run(row, first[places.first])?;
        Ok(Places {
            first: places.first + 1,
            second: places.second,
        })
    } else {
        push_run(row, second[places.second])?;
        Ok(Places {
            first: places.first,
            second: places.second + 1,
        })
    }
}

/// Makes a row of the runs of two.
fn unite(row: &mut Vec<Run>, first: &[Run], second: &[Run]) -> Result<(), AllocError>
    requires first { IsRow first.now }
    requires second { IsRow second.now }
    ensures columns { OnOk result ((x : ℕ) →
        in_runs row.new.items x ≡ (in_runs first.now x || in_runs second.now x)) }
    ensures row { OnOk result (IsRow row.new.items) }
{
    row.clear();
    let mut places = Places {
        first: 0,
        second: 0,
    };
    while places.first < first.len() || places.second < second.len() {
        places = unite_next(row, first, second, places)?;
    }
    Ok(())
}

/// Makes a row of all runs of the rows from `top` to `bottom - 1`. None of the bands before the
/// band `from` has row `top`.
fn unite_rows(
    row: &mut Vec<Run>,
    spare: &mut Vec<Run>,
    old: &Rows,
    top: usize,
    bottom: usize,
    from: usize,
) -> Result<(), AllocError>
    requires rows { AreRows old.now }
    requires order { top ≤ bottom }
    requires within { bottom ≤ depth old.now }
    requires passed { ArePassed old.now from top }
    ensures columns { OnOk result ((x : ℕ) →
        in_runs row.new.items x ≡ columns_between old.now top bottom x) }
    ensures row { OnOk result (IsRow row.new.items) }
{
    row.clear();
    let mut y = top;
    let mut band = from;
    while y < bottom {
        let own = old.at(y, band);
        unite(spare, row, own.runs)?;
        std::mem::swap(row, spare);
        band = own.band;
        y = own.bottom.min(bottom);
    }
    Ok(())
}

/// Tiles of one side on a surface.
#[derive(Clone, Copy, Debug)]
pub struct Tiles {
    pub side: usize,
    pub width: usize,
    pub height: usize,
}

/// Where the row of tiles ends that begins at row `top`; or further down where the rows from `top`
/// to `same_to - 1` are all the same: where the last row of tiles ends that lies among them.
fn tiles_end(tiles: Tiles, top: usize, same_to: usize) -> usize
    requires side { 1 ≤ tiles.side }
    requires top { top < tiles.height }
    requires start { top / tiles.side * tiles.side ≡ top }
    requires within { same_to ≤ tiles.height }
    requires fits { tiles.height + tiles.side < 2 ^ 64 }
    ensures { IsTilesEnd tiles.side tiles.height top same_to result }
{
    if same_to == tiles.height {
        return same_to;
    }
    let one = (top + tiles.side).min(tiles.height);
    one.max(same_to / tiles.side * tiles.side)
}

/// Writes rows rounded to tiles to `new`, and takes the memory that `new`, `row` and `spare` have
/// first.
pub fn round_rows(
    new: &mut Rows,
    row: &mut Vec<Run>,
    spare: &mut Vec<Run>,
    old: &Rows,
    tiles: Tiles,
) -> Result<(), AllocError>
    requires side { 1 ≤ tiles.side }
    requires rows { AreRows old.now }
    requires height { tiles.height ≡ depth old.now }
    requires within { AreWithin old.now tiles.width }
    requires fits_across { tiles.width + tiles.side < 2 ^ 64 }
    requires fits_down { tiles.height + tiles.side < 2 ^ 64 }
    ensures { OnOk result
        (HasTiles tiles.side tiles.width tiles.height old.now tiles.height new.new) }
{
    new.clear();
    let mut y = 0;
    let mut band = 0;
    while y < tiles.height {
        let own = old.at(y, band);
        let end = tiles_end(tiles, y, own.bottom);
        unite_rows(row, spare, old, y, end, own.band)?;
        round_runs(spare, row, tiles.side, tiles.width)?;
        new.close(spare, end)?;
        band = own.band;
        y = end;
    }
    Ok(())
}
