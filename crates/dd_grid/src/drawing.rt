//! An image written between four sides of a picture's cells, row by row, and cells that are moved.

ghost use Rattle.std.specs.Prelude.{◌≡◌, ℕ, ◌+◌, ◌-◌, ◌*◌, ◌/◌, ◌%◌, ◌<◌, length, map, All, IsTrue, slice_index_or, if◌then◌else◌};
ghost use Rattle.dd_geom.specs.Rect.{AreInside, between, is_move_inside};
ghost use Rattle.dd_grid.specs.declared.cell.TheConstants.{COLOURS};
ghost use Rattle.dd_grid.specs.Cell.{Cell, cell_of};
ghost use Rattle.dd_grid.specs.Drawing.{place_in, moved_cells};

use crate::cell::Pixel;
use dd_geom::{Move, Sides, scroll};

/// Writes a cell of each colour.
fn write_run(to: &mut [Pixel], colours: &[u32], hidden: bool)
    requires len { length to.old ≡ length colours.now }
    requires colours { All (λ c. c < COLOURS) colours.now }
    ensures { to.new ≡ map (cell_of hidden) colours.now }
{
    for x in 0..to.len() {
        to[x] = Pixel::new(colours[x], hidden);
    }
}

/// Writes a cell for each place between the sides, which has the next of the colours, row by row;
/// `cells` has rows of `width` cells.
pub(crate) fn write_image(
    cells: &mut [Pixel],
    width: usize,
    height: usize,
    sides: Sides,
    colours: &[u32],
    hidden: bool,
)
    requires inside { AreInside sides width height }
    requires cells { length cells.old ≡ width * height }
    requires count { length colours.now ≡ (sides.right - sides.left) * (sides.bottom - sides.top) }
    requires colours { All (λ c. c < COLOURS) colours.now }
    ensures { (k : ℕ) (d : Cell) → k < length cells.old → slice_index_or cells.new k d
        ≡ (if between sides (k % width) (k / width)
        then cell_of hidden (slice_index_or colours.now (place_in sides (k % width) (k / width)) 0)
        else slice_index_or cells.old k d) }
{
    let size = sides.right - sides.left;
    for y in sides.top..sides.bottom {
        let start = y * width;
        let from = (y - sides.top) * size;
        write_run(
            &mut cells[start + sides.left..start + sides.right],
            &colours[from..from + size],
            hidden,
        );
    }
}

/// Writes the next of the colours into each place between the sides, row by row; `cells` has rows of
/// `width` colours.
pub(crate) fn copy_image(
    cells: &mut [u32],
    width: usize,
    height: usize,
    sides: Sides,
    colours: &[u32],
)
    requires inside { AreInside sides width height }
    requires cells { length cells.old ≡ width * height }
    requires count { length colours.now ≡ (sides.right - sides.left) * (sides.bottom - sides.top) }
    ensures { (k : ℕ) (d : ℕ) → k < length cells.old → slice_index_or cells.new k d
        ≡ (if between sides (k % width) (k / width)
        then slice_index_or colours.now (place_in sides (k % width) (k / width)) 0
        else slice_index_or cells.old k d) }
{
    let size = sides.right - sides.left;
    for y in sides.top..sides.bottom {
        let start = y * width;
        let first = (y - sides.top) * size;
        cells[start + sides.left..start + sides.right].copy_from_slice(
            &colours[first..first + size],
        );
    }
}

/// Copies whole cells to a move's destination, what is hidden as what is not; `cells` has rows of
/// `width` cells.
pub(crate) fn move_cells(cells: &mut [Pixel], width: usize, height: usize, m: Move)
    requires inside { IsTrue (is_move_inside m width height) }
    requires cells { length cells.old ≡ width * height }
    ensures { record { width = width; height = height; cells = cells.new }
        ≡ moved_cells (record { width = width; height = height; cells = cells.old }) m }
{
    scroll(cells, width, height, m);
}
