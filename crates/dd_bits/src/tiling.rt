//! A set rounded to tiles, in place: one tile after another.

ghost use Rattle.std.specs.Prelude.{◌≡◌, ℕ, ◌*◌, ◌≤◌, ◌<◌, ◌+◌, length, min};
ghost use Rattle.std.specs.List.{list_any};
ghost use Rattle.dd_geom.specs.Rect.{AreInside};
ghost use Rattle.dd_bits.specs.Tiles.{tiles};
ghost use Rattle.dd_bits.specs.Rounding.{tile_sides, some_between, IsRounded, this_tile, this_row};

use dd_geom::{Sides, paint};

/// Whether some cell of a run is marked. It looks at each cell without a branch, so that a blank run
/// costs little.
pub(crate) fn has_marked(run: &[bool]) -> bool
    ensures { result ≡ list_any (λ b. b) run.now }
{
    let mut some = false;
    for cell in run {
        some = some | *cell;
    }
    some
}

/// Whether some cell between the sides is marked; `cells` has rows of `width` cells.
fn has_between(cells: &[bool], width: usize, height: usize, sides: Sides) -> bool
    requires inside { AreInside sides width height }
    requires cells { length cells.now ≡ width * height }
    ensures { result ≡
        some_between (record { width = width; height = height; cells = cells.now }) sides }
{
    for y in sides.top..sides.bottom {
        let start = y * width;
        if has_marked(&cells[start + sides.left..start + sides.right]) {
            return true;
        }
    }
    false
}

/// Where a tile of side `t` that begins at `start` ends: the last one is cut.
fn tile_end(start: usize, t: usize, length: usize) -> usize
    requires { start ≤ length }
    ensures { result ≡ min (start + t) length }
{
    start + t.min(length - start)
}

/// The sides of a tile, cut at the surface's.
fn sides_of_tile(width: usize, height: usize, t: usize, across: usize, down: usize) -> Sides
    requires across { across * t < width }
    requires down { down * t < height }
    ensures sides { result ≡ tile_sides width height t across down }
    ensures inside { AreInside result width height }
{
    let left = across * t;
    let top = down * t;
    Sides {
        left,
        top,
        right: tile_end(left, t, width),
        bottom: tile_end(top, t, height),
    }
}

/// Rounds one tile: with one of its points in the set all are.
fn round_tile(cells: &mut [bool], width: usize, height: usize, t: usize, across: usize, down: usize)
    requires side { 1 ≤ t }
    requires across { across * t < width }
    requires down { down * t < height }
    requires cells { length cells.old ≡ width * height }
    ensures { IsRounded width height t (this_tile across down) cells.old cells.new }
{
    let sides = sides_of_tile(width, height, t, across, down);
    if has_between(cells, width, height, sides) {
        paint(cells, width, height, sides, true);
    }
}

/// Rounds the tiles of one row of tiles.
fn round_row(cells: &mut [bool], width: usize, height: usize, t: usize, down: usize)
    requires side { 1 ≤ t }
    requires down { down * t < height }
    requires cells { length cells.old ≡ width * height }
    ensures { IsRounded width height t (this_row down) cells.old cells.new }
{
    for across in 0..width.div_ceil(t) {
        round_tile(cells, width, height, t, across, down);
    }
}

/// Rounds a set to tiles of side `t`; `cells` has rows of `width` cells.
pub(crate) fn round_to_tiles(cells: &mut [bool], width: usize, height: usize, t: usize)
    requires side { 1 ≤ t }
    requires cells { length cells.old ≡ width * height }
    ensures { record { width = width; height = height; cells = cells.new }
        ≡ tiles t (record { width = width; height = height; cells = cells.old }) }
{
    for down in 0..height.div_ceil(t) {
        round_row(cells, width, height, t, down);
    }
}
