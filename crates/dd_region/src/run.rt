//! Runs of columns, and the rows that they make.

ghost use Rattle.std.specs.Prelude.{◌≡◌, ℕ, ◌<◌, ◌≤◌, ◌+◌, ◌-◌, ◌^◌, ◌||◌, ◌↔◌, true, IsTrue, OnOk};
ghost use Rattle.std.specs.Bool.{OnTrue};
ghost use Rattle.dd_region.specs.Runs.{in_run, in_runs, IsRow, BeginBy, in_window, landing};

use std::alloc::AllocError;

/// The columns from `left` to `right - 1`.
#[derive(Clone, Copy, Debug, PartialEq, Eq)]
pub struct Run {
    pub left: usize,
    pub right: usize,
}

/// The columns from `left` to `right - 1` of a row, moved so that the first of them comes to `to`.
#[derive(Clone, Copy, Debug)]
pub struct Window {
    pub left: usize,
    pub right: usize,
    pub to: usize,
}

/// Whether two rows have the same runs.
pub fn same_runs(a: &[Run], b: &[Run]) -> bool
    ensures { IsTrue result ↔ (a.now ≡ b.now) }
{
    a == b
}

/// Whether a run has the column.
fn run_has(run: Run, x: usize) -> bool
    ensures { result ≡ in_run run x }
{
    run.left <= x && x < run.right
}

/// Whether one of the runs has the column.
pub fn has_column(runs: &[Run], x: usize) -> bool
    ensures { result ≡ in_runs runs.now x }
{
    runs.iter().any(|run| run_has(*run, x))
}

/// Whether one of the runs has all columns from `left` to `right - 1`.
pub fn has_columns(runs: &[Run], left: usize, right: usize) -> bool
    ensures { OnTrue result ((x : ℕ) → left ≤ x → x < right → in_runs runs.now x ≡ true) }
{
    runs.iter()
        .any(|run| run.left <= left && right <= run.right)
}

/// Adds a run at the right end of a row: one that begins no further left than any run of it. Where
/// it touches the last one, or overlaps it, the two are joined.
pub fn push_run(row: &mut Vec<Run>, run: Run) -> Result<(), AllocError>
    requires some { run.left < run.right }
    requires row { IsRow row.old.items }
    requires begin { BeginBy row.old.items run.left }
    ensures columns { OnOk result ((x : ℕ) →
        in_runs row.new.items x ≡ (in_runs row.old.items x || in_run run x)) }
    ensures row { OnOk result (IsRow row.new.items) }
    ensures begin { OnOk result (BeginBy row.new.items run.left) }
{
    let count = row.len();
    if count > 0 {
        let last = row[count - 1];
        if run.left <= last.right {
            row[count - 1].right = last.right.max(run.right);
            return Ok(());
        }
    }
    row.push(run)?;
    Ok(())
}

/// Adds what a window shows of a run to a row, which may be nothing.
fn push_part(row: &mut Vec<Run>, run: Run, window: Window) -> Result<(), AllocError>
    requires order { window.left ≤ window.right }
    requires fits { window.to + (window.right - window.left) < 2 ^ 64 }
    requires row { IsRow row.old.items }
    requires begin { BeginBy row.old.items (landing window run.left) }
    ensures columns { OnOk result ((x : ℕ) → in_runs row.new.items x
        ≡ (in_runs row.old.items x || in_window window (in_run run) x)) }
    ensures row { OnOk result (IsRow row.new.items) }
    ensures begin { OnOk result (BeginBy row.new.items (landing window run.left)) }
{
    let left = run.left.max(window.left);
    let right = run.right.min(window.right);
    if left >= right {
        return Ok(());
    }
    let part = Run {
        left: left - window.left + window.to,
        right: right - window.left + window.to,
    };
    push_run(row, part)
}

/// Adds what a window shows of some runs at the right end of a row.
pub fn copy_runs(row: &mut Vec<Run>, runs: &[Run], window: Window) -> Result<(), AllocError>
    requires order { window.left ≤ window.right }
    requires fits { window.to + (window.right - window.left) < 2 ^ 64 }
    requires runs { IsRow runs.now }
    requires row { IsRow row.old.items }
    requires begin { BeginBy row.old.items window.to }
    ensures columns { OnOk result ((x : ℕ) → in_runs row.new.items x
        ≡ (in_runs row.old.items x || in_window window (in_runs runs.now) x)) }
    ensures row { OnOk result (IsRow row.new.items) }
    ensures begin { OnOk result (BeginBy row.new.items (window.to + (window.right - window.left))) }
{
    for run in runs {
        push_part(row, *run, window)?;
    }
    Ok(())
}
