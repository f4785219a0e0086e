//! Rows written anew: as they were outside a rectangle, and otherwise inside it.

ghost use Rattle.std.specs.Prelude.{◌≡◌, ℕ, ◌+◌, ◌-◌, ◌^◌, ◌<◌, ◌≤◌, ◌||◌, ◌&&◌, nat_le, nat_lt, false, OnOk, IfOk, if◌then◌else◌};
ghost use Rattle.dd_region.specs.Runs.{in_runs, IsRow, BeginBy};
ghost use Rattle.dd_region.specs.Rows.{depth, AreRows, ArePassed, has_point, AreWithin};
ghost use Rattle.dd_region.specs.Sweep.{inside_has, IsPatch, IsSourcePassed, IsStep, HasRowsOf, HasPatch};

use crate::carry::carry;
use crate::rows::Rows;
use crate::run::{Run, Window, copy_runs, push_run};
use dd_geom::{MAX_SIDE, Sides};
use std::alloc::AllocError;

/// What a set is to have between the sides of a rectangle.
#[derive(Clone, Copy, Debug)]
pub enum Inside {
    /// No point.
    Nothing,
    /// Each point.
    Whole,
    /// What it had from this column and this row on.
    Source { column: usize, row: usize },
}

/// A rectangle's sides, and what comes between them.
#[derive(Clone, Copy, Debug)]
pub struct Patch {
    pub sides: Sides,
    pub inside: Inside,
}

/// How far a row that was written serves: for the rows down to `bottom - 1`. The source of the rows
/// below it lies in no band before `band`.
#[derive(Clone, Copy, Debug)]
struct Step {
    bottom: usize,
    band: usize,
}

/// Adds what row `y` of the rectangle gets from the source that begins at `column` and `source`.
fn push_source(
    row: &mut Vec<Run>,
    old: &Rows,
    sides: Sides,
    column: usize,
    source: usize,
    y: usize,
    from: usize,
) -> Result<Step, AllocError>
    requires rows { AreRows old.now }
    requires row { IsRow row.old.items }
    requires begin { BeginBy row.old.items sides.left }
    requires sides { sides.left ≤ sides.right }
    requires top { sides.top ≤ y }
    requires bottom { y < sides.bottom }
    requires across { column + (sides.right - sides.left) < 2 ^ 64 }
    requires down { source + (sides.bottom - sides.top) < 2 ^ 64 }
    requires source { source + (sides.bottom - sides.top) ≤ depth old.now }
    requires passed { ArePassed old.now from (y + source - sides.top) }
    ensures columns { IfOk result (λ step. (x z : ℕ) → y ≤ z → z < step.bottom →
        in_runs row.new.items x ≡ (in_runs row.old.items x || (nat_le sides.left x && nat_lt x sides.right
        && has_point old.now (x + column - sides.left) (z + source - sides.top)))) }
    ensures row { OnOk result (IsRow row.new.items) }
    ensures begin { OnOk result (BeginBy row.new.items sides.right) }
    ensures step { IfOk result (IsStep (Inside.Source column source) sides old.now y) }
{
    let line = y - sides.top + source;
    let at = old.at(line, from);
    let window = Window {
        left: column,
        right: column + (sides.right - sides.left),
        to: sides.left,
    };
    copy_runs(row, at.runs, window)?;
    Ok(Step {
        bottom: y + (at.bottom - line).min(sides.bottom - y),
        band: at.band,
    })
}

/// Adds what row `y` of a patch's rectangle gets.
fn push_inside(
    row: &mut Vec<Run>,
    old: &Rows,
    patch: Patch,
    y: usize,
    from: usize,
) -> Result<Step, AllocError>
    requires rows { AreRows old.now }
    requires row { IsRow row.old.items }
    requires begin { BeginBy row.old.items patch.sides.left }
    requires deep { depth old.now ≤ MAX_SIDE }
    requires patch { IsPatch patch MAX_SIDE (depth old.now) }
    requires top { patch.sides.top ≤ y }
    requires bottom { y < patch.sides.bottom }
    requires passed { IsSourcePassed patch.inside patch.sides old.now from y }
    ensures columns { IfOk result (λ step. (x z : ℕ) → y ≤ z → z < step.bottom →
        in_runs row.new.items x ≡ (in_runs row.old.items x || (nat_le patch.sides.left x && nat_lt x patch.sides.right
        && inside_has patch.inside patch.sides (has_point old.now) x z))) }
    ensures row { OnOk result (IsRow row.new.items) }
    ensures begin { OnOk result (BeginBy row.new.items patch.sides.right) }
    ensures step { IfOk result (IsStep patch.inside patch.sides old.now y) }
{
    let sides = patch.sides;
    let all = Step {
        bottom: sides.bottom,
        band: from,
    };
    match patch.inside {
        Inside::Nothing => Ok(all),
        Inside::Whole => {
            let run = Run {
                left: sides.left,
                right: sides.right,
            };
            push_run(row, run)?;
            Ok(all)
        }
        Inside::Source {
            column,
            row: source,
        } => push_source(row, old, sides, column, source, y, from),
    }
}

/// Writes row `y` of a patch's rectangle anew, which had these runs.
fn write_row(
    row: &mut Vec<Run>,
    old: &Rows,
    runs: &[Run],
    width: usize,
    patch: Patch,
    y: usize,
    from: usize,
) -> Result<Step, AllocError>
    requires rows { AreRows old.now }
    requires runs { IsRow runs.now }
    requires within { (x : ℕ) → width ≤ x → in_runs runs.now x ≡ false }
    requires deep { depth old.now ≤ MAX_SIDE }
    requires wide { width ≤ MAX_SIDE }
    requires patch { IsPatch patch width (depth old.now) }
    requires top { patch.sides.top ≤ y }
    requires bottom { y < patch.sides.bottom }
    requires passed { IsSourcePassed patch.inside patch.sides old.now from y }
    ensures columns { IfOk result (λ step. (x z : ℕ) → y ≤ z → z < step.bottom →
        in_runs row.new.items x ≡ (if nat_le patch.sides.left x && nat_lt x patch.sides.right
        then inside_has patch.inside patch.sides (has_point old.now) x z else in_runs runs.now x)) }
    ensures row { OnOk result (IsRow row.new.items) }
    ensures step { IfOk result (IsStep patch.inside patch.sides old.now y) }
{
    let sides = patch.sides;
    row.clear();
    let before = Window {
        left: 0,
        right: sides.left,
        to: 0,
    };
    copy_runs(row, runs, before)?;
    let step = push_inside(row, old, patch, y, from)?;
    let after = Window {
        left: sides.right,
        right: width,
        to: sides.right,
    };
    copy_runs(row, runs, after)?;
    Ok(step)
}

/// Adds the rows from `from` to `to - 1` as they were.
fn copy_rows(new: &mut Rows, old: &Rows, from: usize, to: usize) -> Result<(), AllocError>
    requires rows { AreRows old.now }
    requires new { AreRows new.old }
    requires order { from ≤ to }
    requires deep { to ≤ depth old.now }
    requires start { depth new.old ≡ from }
    ensures { OnOk result (HasRowsOf old.now new.old to new.new) }
{
    if from == to {
        return Ok(());
    }
    let row = old.at(from, 0);
    let bottom = row.bottom.min(to);
    new.close(row.runs, bottom)?;
    if bottom == to {
        return Ok(());
    }
    carry(new, old, row.band, bottom, to)
}

/// Writes the rows of a patch's rectangle anew.
fn write_rows(
    new: &mut Rows,
    row: &mut Vec<Run>,
    old: &Rows,
    width: usize,
    patch: Patch,
) -> Result<(), AllocError>
    requires rows { AreRows old.now }
    requires within { AreWithin old.now width }
    requires deep { depth old.now ≤ MAX_SIDE }
    requires wide { width ≤ MAX_SIDE }
    requires patch { IsPatch patch width (depth old.now) }
    requires before { HasPatch patch old.now patch.sides.top new.old }
    ensures { OnOk result (HasPatch patch old.now patch.sides.bottom new.new) }
{
    let mut y = patch.sides.top;
    let mut band = 0;
    let mut source = 0;
    while y < patch.sides.bottom {
        let own = old.at(y, band);
        let step = write_row(row, old, own.runs, width, patch, y, source)?;
        let bottom = own.bottom.min(step.bottom);
        new.close(row, bottom)?;
        band = own.band;
        source = step.band;
        y = bottom;
    }
    Ok(())
}

/// Writes the set with a patch to `new`, and takes the memory that `new` and `row` have first. The
/// set has `width` columns and `height` rows.
pub fn sweep(
    new: &mut Rows,
    row: &mut Vec<Run>,
    old: &Rows,
    width: usize,
    height: usize,
    patch: Patch,
) -> Result<(), AllocError>
    requires rows { AreRows old.now }
    requires within { AreWithin old.now width }
    requires wide { width ≤ MAX_SIDE }
    requires deep { height ≤ MAX_SIDE }
    requires patch { IsPatch patch width height }
    requires height { height ≡ depth old.now }
    ensures { OnOk result (HasPatch patch old.now (depth old.now) new.new) }
{
    new.clear();
    copy_rows(new, old, 0, patch.sides.top)?;
    write_rows(new, row, old, width, patch)?;
    copy_rows(new, old, patch.sides.bottom, height)
}
