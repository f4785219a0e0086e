//! What is painted and copied between four sides of a grid's cells.

ghost use Rattle.std.specs.Prelude.{◌≡◌, ℕ, ◌*◌, ◌/◌, ◌%◌, ◌≤◌, ◌<◌, length, replicate, slice_index_or, if◌then◌else◌};
ghost use Rattle.dd_geom.specs.Rect.{between, AreInside};

use crate::rect::Sides;

/// Writes the value into each cell of a run.
fn paint_run<T: Copy>(run: &mut [T], value: T)
    ensures { run.new ≡ replicate (length run.old) value }
{
    for cell in run.iter_mut() {
        *cell = value;
    }
}

/// Writes the value into each cell between the sides; `cells` has rows of `width` cells.
pub fn paint<T: Copy>(cells: &mut [T], width: usize, height: usize, sides: Sides, value: T)
    requires inside { AreInside sides width height }
    requires cells { length cells.old ≡ width * height }
    ensures { (k : ℕ) (d : T) → k < length cells.old → slice_index_or cells.new k d
        ≡ (if between sides (k % width) (k / width) then value else slice_index_or cells.old k d) }
{
    for y in sides.top..sides.bottom {
        let start = y * width;
        paint_run(&mut cells[start + sides.left..start + sides.right], value);
    }
}
