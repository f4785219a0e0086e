//! A surface: a visible colour for each point, row by row.

ghost use Rattle.std.specs.Prelude.{◌≡◌, ℕ, ◌*◌, ◌/◌, ◌%◌, ◌<◌, length, map, All, IsTrue, IfOk};
ghost use Rattle.std.specs.Prelude.{slice_index_or, if◌then◌else◌};
ghost use Rattle.dd_geom.specs.Rect.{IsSize, AreInside, between, is_inside, is_move_inside, points};
ghost use Rattle.dd_grid.specs.declared.cell.TheConstants.{COLOURS};
ghost use Rattle.dd_geom.specs.Grid.{SameSize, row};
ghost use Rattle.dd_grid.specs.Cell.{seen_cell};
ghost use Rattle.dd_grid.specs.Drawing.{cell_at};

use crate::cell::Pixel;
use crate::drawing::copy_image;
use crate::picture::Picture;
use dd_geom::{Move, Rect, Sides, paint, scroll, sides_of};
use std::alloc::{AllocError, Global};
use std::marker::Model;

/// A surface of a size that a mode may have, with exactly one colour of 4 bytes, below 2^24, for
/// each point.
#[derive(Debug, Drop)]
pub struct Surface {
    width: u32,
    height: u32,
    colours: Vec<u32>,
}

impl Model for Surface {
    ghost use Rattle.std.specs.Prelude.{ℕ};
    ghost use Rattle.dd_geom.specs.Grid.{Grid};

    ghost Value = { Grid ℕ };

    ghost use Rattle.dd_grid.specs.Drawing.{IsSurface};

    ghost view = { λ s. record { width = s.width; height = s.height; cells = s.colours.items } };

    ghost invariant = { λ s. IsSurface (record { width = s.width; height = s.height; cells = s.colours.items }) };
}

/// Writes what is seen of each cell.
fn take_run(to: &mut [u32], from: &[Pixel])
    requires { length to.old ≡ length from.now }
    ensures seen { to.new ≡ map seen_cell from.now }
    ensures small { All (λ c. c < COLOURS) to.new }
{
    for x in 0..to.len() {
        to[x] = from[x].seen();
    }
}

/// Writes what is seen of a picture into each colour between the sides; `colours` has rows of
/// `width` colours.
fn take_rows(colours: &mut [u32], width: usize, height: usize, sides: Sides, from: &Picture)
    requires inside { AreInside sides width height }
    requires inside_from { AreInside sides from.now.width from.now.height }
    requires colours { length colours.old ≡ width * height }
    ensures taken { (k : ℕ) (d : ℕ) → k < length colours.old → slice_index_or colours.new k d
        ≡ (if between sides (k % width) (k / width) then seen_cell (cell_at from.now (k % width) (k / width))
        else slice_index_or colours.old k d) }
    ensures small { All (λ c. c < COLOURS) colours.old → All (λ c. c < COLOURS) colours.new }
{
    for y in sides.top..sides.bottom {
        let start = y * width;
        let run = from.run(y, sides.left, sides.right);
        take_run(&mut colours[start + sides.left..start + sides.right], run);
    }
}

impl Surface {
    ghost use Rattle.dd_grid.specs.Drawing.{IsSurface, blank, with_colour, painted, imaged, taken, moved};

    /// A surface of `w` by `h` black points.
    pub fn new(alloc: Global, w: u32, h: u32) -> Result<Surface, AllocError>
        requires { IsSize w h }
        ensures { IfOk result (λ s. s ≡ blank w h) }
    {
        let colours = vec![in alloc; 0; w as usize * h as usize]?;
        Ok(Surface {
            width: w,
            height: h,
            colours,
        })
    }

    pub fn width(&self) -> u32
        ensures width { result ≡ self.now.width }
        ensures surface { IsSurface self.now }
    {
        self.width
    }

    pub fn height(&self) -> u32
        ensures height { result ≡ self.now.height }
        ensures surface { IsSurface self.now }
    {
        self.height
    }

    /// The colours of a row, without a copy.
    pub fn row(&self, y: u32) -> &[u32]
        requires { y < self.now.height }
        ensures row { result.now ≡ row self.now y }
        ensures colours { All (λ c. c < COLOURS) result.now }
    {
        let start = y as usize * self.width as usize;
        &self.colours[start..start + self.width as usize]
    }

    /// Sets the colour of one point.
    pub fn set(&mut self, x: u32, y: u32, colour: u32)
        requires x { x < self.old.width }
        requires y { y < self.old.height }
        requires colour { colour < COLOURS }
        ensures set { self.new ≡ with_colour self.old x y colour }
        ensures size { SameSize self.old self.new }
    {
        self.colours[y as usize * self.width as usize + x as usize] = colour;
    }

    /// Paints a rectangle in one colour.
    pub fn fill(&mut self, r: Rect, colour: u32)
        requires inside { IsTrue (is_inside r self.old.width self.old.height) }
        requires colour { colour < COLOURS }
        ensures drawn { self.new ≡ painted self.old r colour }
        ensures size { SameSize self.old self.new }
    {
        let width = self.width as usize;
        let height = self.height as usize;
        paint(&mut self.colours, width, height, sides_of(r), colour);
    }

    /// Draws an image in a rectangle: one colour for each point, row by row.
    pub fn blit(&mut self, r: Rect, colours: &[u32])
        requires inside { IsTrue (is_inside r self.old.width self.old.height) }
        requires colours { All (λ c. c < COLOURS) colours.now }
        requires count { length colours.now ≡ points r }
        ensures drawn { self.new ≡ imaged self.old r colours.now }
        ensures size { SameSize self.old self.new }
    {
        let width = self.width as usize;
        let height = self.height as usize;
        copy_image(&mut self.colours, width, height, sides_of(r), colours);
    }

    /// Copies colours to the move's destination, as if through a copy of them: source and
    /// destination may overlap.
    pub fn scroll(&mut self, m: Move)
        requires inside { IsTrue (is_move_inside m self.old.width self.old.height) }
        ensures drawn { self.new ≡ moved self.old m }
        ensures size { SameSize self.old self.new }
    {
        let width = self.width as usize;
        let height = self.height as usize;
        scroll(&mut self.colours, width, height, m);
    }

    /// Copies what is seen of a picture inside a rectangle.
    pub fn take(&mut self, r: Rect, from: &Picture)
        requires inside { IsTrue (is_inside r self.old.width self.old.height) }
        requires inside_from { IsTrue (is_inside r from.now.width from.now.height) }
        ensures taken { self.new ≡ taken self.old r from.now }
        ensures size { SameSize self.old self.new }
    {
        let width = self.width as usize;
        let height = self.height as usize;
        take_rows(&mut self.colours, width, height, sides_of(r), from);
    }
}
