//! A rectangle of a grid's cells copied to another place of it.

ghost use Rattle.std.specs.Prelude.{◌≡◌, ℕ, ◌+◌, ◌-◌, ◌*◌, ◌≤◌, ◌<◌, length, IsTrue};
ghost use Rattle.std.specs.List.{CopiedTo, SameBelow, SameFrom};
ghost use Rattle.dd_geom.specs.Rect.{AreInside, is_move_inside};
ghost use Rattle.dd_geom.specs.Grid.{scrolled};
ghost use Rattle.dd_geom.specs.Scrolling.{IsCopied};

use crate::rect::{Move, Sides, index_of, sides_of};

/// Copies a run of cells to another place, which may overlap it: where it doesn't, as one block.
fn copy_run<T: Copy>(cells: &mut [T], from: usize, size: usize, to: usize)
    requires source { from + size ≤ length cells.old }
    requires destination { to + size ≤ length cells.old }
    ensures length { length cells.new ≡ length cells.old }
    ensures copied { CopiedTo cells.old cells.new from to size }
    ensures below { SameBelow cells.old cells.new to }
    ensures above { SameFrom cells.old cells.new (to + size) }
{
    if from + size <= to {
        let (front, back) = cells.split_at_mut(to);
        back[..size].copy_from_slice(&front[from..from + size]);
    } else if to + size <= from {
        let (front, back) = cells.split_at_mut(from);
        front[to..to + size].copy_from_slice(&back[..size]);
    } else {
        cells.copy_within(from..from + size, to);
    }
}

/// Copies a run of cells to a place before it, block by block from the first on: no block is longer
/// than the distance, so that none overlaps its new place.
fn copy_blocks_forward<T: Copy>(cells: &mut [T], from: usize, size: usize, to: usize)
    requires order { to < from }
    requires inside { from + size ≤ length cells.old }
    ensures length { length cells.new ≡ length cells.old }
    ensures copied { CopiedTo cells.old cells.new from to size }
    ensures below { SameBelow cells.old cells.new to }
    ensures above { SameFrom cells.old cells.new (to + size) }
{
    let distance = from - to;
    let mut done = 0;
    while done < size {
        let count = distance.min(size - done);
        copy_run(cells, from + done, count, to + done);
        done += count;
    }
}

/// Copies a run of cells to a place after it, block by block from the last on.
fn copy_blocks_backward<T: Copy>(cells: &mut [T], from: usize, size: usize, to: usize)
    requires order { from < to }
    requires inside { to + size ≤ length cells.old }
    ensures length { length cells.new ≡ length cells.old }
    ensures copied { CopiedTo cells.old cells.new from to size }
    ensures below { SameBelow cells.old cells.new to }
    ensures above { SameFrom cells.old cells.new (to + size) }
{
    let distance = to - from;
    let mut left = size;
    while left > 0 {
        let count = distance.min(left);
        left -= count;
        copy_run(cells, from + left, count, to + left);
    }
}

/// Copies a run of cells to another place in blocks that don't overlap.
fn copy_blocks<T: Copy>(cells: &mut [T], from: usize, size: usize, to: usize)
    requires source { from + size ≤ length cells.old }
    requires destination { to + size ≤ length cells.old }
    ensures length { length cells.new ≡ length cells.old }
    ensures copied { CopiedTo cells.old cells.new from to size }
    ensures below { SameBelow cells.old cells.new to }
    ensures above { SameFrom cells.old cells.new (to + size) }
{
    if to < from {
        copy_blocks_forward(cells, from, size, to);
    } else if from < to {
        copy_blocks_backward(cells, from, size, to);
    }
}

/// Copies the rows one after another from the first on: where the source lies as low as `to`, or
/// lower, no row is written before it was read.
fn copy_from_the_top<T: Copy>(
    cells: &mut [T],
    width: usize,
    height: usize,
    to: Sides,
    column: usize,
    row: usize,
)
    requires inside { AreInside to width height }
    requires across { column + (to.right - to.left) ≤ width }
    requires down { row + (to.bottom - to.top) ≤ height }
    requires cells { length cells.old ≡ width * height }
    requires order { to.top ≤ row }
    ensures { IsCopied width to column row cells.old cells.new }
{
    let size = to.right - to.left;
    for y in to.top..to.bottom {
        let from = (y - to.top + row) * width + column;
        copy_run(cells, from, size, y * width + to.left);
    }
}

/// Copies the rows one after another from the last on: where the source lies higher than `to`, no
/// row is written before it was read.
fn copy_from_the_bottom<T: Copy>(
    cells: &mut [T],
    width: usize,
    height: usize,
    to: Sides,
    column: usize,
    row: usize,
)
    requires inside { AreInside to width height }
    requires across { column + (to.right - to.left) ≤ width }
    requires down { row + (to.bottom - to.top) ≤ height }
    requires cells { length cells.old ≡ width * height }
    requires order { row ≤ to.top }
    ensures { IsCopied width to column row cells.old cells.new }
{
    let size = to.right - to.left;
    for y in (to.top..to.bottom).rev() {
        let from = (y - to.top + row) * width + column;
        copy_run(cells, from, size, y * width + to.left);
    }
}

/// Copies whole rows, which are one run of cells.
fn copy_rows<T: Copy>(cells: &mut [T], width: usize, height: usize, to: Sides, row: usize)
    requires inside { AreInside to width height }
    requires left { to.left ≡ 0 }
    requires right { to.right ≡ width }
    requires down { row + (to.bottom - to.top) ≤ height }
    requires cells { length cells.old ≡ width * height }
    ensures { IsCopied width to 0 row cells.old cells.new }
{
    let size = (to.bottom - to.top) * width;
    copy_blocks(cells, row * width, size, to.top * width);
}

/// Copies whole rows in blocks, and parts of rows in the order in which none is written before it
/// was read.
fn copy_between<T: Copy>(
    cells: &mut [T],
    width: usize,
    height: usize,
    to: Sides,
    column: usize,
    row: usize,
)
    requires inside { AreInside to width height }
    requires across { column + (to.right - to.left) ≤ width }
    requires down { row + (to.bottom - to.top) ≤ height }
    requires cells { length cells.old ≡ width * height }
    ensures { IsCopied width to column row cells.old cells.new }
{
    if to.left == 0 && to.right == width {
        copy_rows(cells, width, height, to, row);
    } else if to.top <= row {
        copy_from_the_top(cells, width, height, to, column, row);
    } else {
        copy_from_the_bottom(cells, width, height, to, column, row);
    }
}

/// Copies each cell of a move's source to its place in the destination, as if through a copy of
/// them; `cells` has rows of `width` cells. Source and destination may overlap.
pub fn scroll<T: Copy>(cells: &mut [T], width: usize, height: usize, m: Move)
    requires inside { IsTrue (is_move_inside m width height) }
    requires cells { length cells.old ≡ width * height }
    ensures { (d : T) → record { width = width; height = height; cells = cells.new }
        ≡ scrolled d (record { width = width; height = height; cells = cells.old }) m }
{
    let to = sides_of(m.dest);
    let column = index_of(m.source.x);
    let row = index_of(m.source.y);
    copy_between(cells, width, height, to, column, row);
}
