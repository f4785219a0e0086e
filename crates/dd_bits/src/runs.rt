//! The runs of marked columns of one row.

ghost use Rattle.std.specs.Prelude.{◌≡◌, ◌≤◌, ◌<◌, ◌++◌, Bool, true, false, length, OnOk, IfSome, IfNone};
ghost use Rattle.std.specs.Bool.{OnTrue};
ghost use Rattle.dd_bits.specs.CanonicalList.{rect_from, row_runs, is_marked, HasNone, IsRun};

use dd_geom::{MAX_SIDE, Rect};
use std::alloc::AllocError;

/// A run of columns: those from `left` to `right - 1`.
#[derive(Clone, Copy)]
struct Run {
    left: usize,
    right: usize,
}

impl Run {
    /// The run as a rectangle of the rows from `top` to `bottom - 1`.
    fn in_rows(self, top: u32, bottom: u32) -> Rect
        requires right { self.right ≤ MAX_SIDE }
        requires left { self.left ≤ MAX_SIDE }
        requires top { top < MAX_SIDE }
        requires bottom { bottom ≤ MAX_SIDE }
        ensures { result ≡ rect_from self.left top self.right bottom }
    {
        Rect {
            left: self.left as i32,
            top: top as i32,
            right: self.right as i32,
            bottom: bottom as i32,
        }
    }
}

/// The first column at or after `from` that is marked, or that isn't; the row's length where there
/// is none.
fn find(row: &[bool], from: usize, marked: bool) -> usize
    requires { from ≤ length row.now }
    ensures after { from ≤ result }
    ensures within { result ≤ length row.now }
    ensures before { HasNone (is_marked row.now) marked from result }
    ensures found { result < length row.now → is_marked row.now result ≡ marked }
{
    for x in from..row.len() {
        if row[x] == marked {
            return x;
        }
    }
    row.len()
}

/// The first run that begins at or after `from`.
fn next_run(row: &[bool], from: usize) -> Option<Run>
    requires { from ≤ length row.now }
    ensures none { IfNone result (HasNone (is_marked row.now) true from (length row.now)) }
    ensures first { IfSome result (λ run. HasNone (is_marked row.now) true from run.left) }
    ensures run { IfSome result (λ run. IsRun (is_marked row.now) run.left run.right) }
    ensures from { IfSome result (λ run. from ≤ run.left) }
    ensures within { IfSome result (λ run. run.right ≤ length row.now) }
{
    let left = find(row, from, true);
    if left == row.len() {
        return None;
    }
    let right = find(row, left + 1, false);
    Some(Run { left, right })
}

/// Whether no column of the row is marked. It looks at each cell without a branch, so that a blank
/// row costs little.
fn is_blank(row: &[bool]) -> bool
    ensures { OnTrue result (HasNone (is_marked row.now) true 0 (length row.now)) }
{
    let mut some = false;
    for cell in row {
        some = some | *cell;
    }
    !some
}

/// Appends the rectangles of a row's runs, from left to right, each of the rows from `top` to
/// `bottom - 1`.
pub(crate) fn push_runs(
    out: &mut Vec<Rect>,
    row: &[bool],
    top: u32,
    bottom: u32,
) -> Result<(), AllocError>
    requires width { length row.now ≤ MAX_SIDE }
    requires top { top < MAX_SIDE }
    requires bottom { bottom ≤ MAX_SIDE }
    ensures { OnOk result
        (out.new.items ≡ out.old.items ++ row_runs (is_marked row.now) (length row.now) top bottom) }
{
    if is_blank(row) {
        return Ok(());
    }
    let mut from = 0;
    while let Some(run) = next_run(row, from) {
        out.push(run.in_rows(top, bottom))?;
        from = run.right;
    }
    Ok(())
}
