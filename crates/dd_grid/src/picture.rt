//! A picture: a cell for each point, row by row, drawn in place.

ghost use Rattle.std.specs.Prelude.{◌≡◌, ◌+◌, ◌*◌, ◌<◌, ◌≤◌, length, slice_range, IsTrue, IfOk};
ghost use Rattle.std.specs.Prelude.{ℕ, All, map, false};
ghost use Rattle.std.specs.List.{list_any};
ghost use Rattle.dd_grid.specs.declared.cell.TheConstants.{COLOURS};
ghost use Rattle.dd_geom.specs.Grid.{SameSize};
ghost use Rattle.dd_geom.specs.Rect.{IsSize, AreInside, is_inside, is_move_inside, points};

use crate::cell::Pixel;
use crate::drawing::{move_cells, write_image};
use dd_geom::{Move, Rect, paint, sides_of};
use std::alloc::{AllocError, Global};
use std::marker::Model;

/// A picture of a size that a surface may have, with exactly one cell of 4 bytes for each point.
///
/// Each cell has a colour below 2^24, and none is hidden where nothing was ever covered.
#[derive(Debug, Drop)]
pub struct Picture {
    width: u32,
    height: u32,
    cells: Vec<Pixel>,
    /// Whether something was covered, now or before.
    covered: bool,
}

impl Model for Picture {
    ghost use Rattle.dd_grid.specs.Cell.{Cell};
    ghost use Rattle.dd_geom.specs.Grid.{Grid};

    ghost Value = { Grid Cell };

    ghost use Rattle.std.specs.Prelude.{◌≡◌, false};
    ghost use Rattle.dd_grid.specs.Drawing.{IsPicture, ShowsAll};

    ghost view = { λ p. record { width = p.width; height = p.height; cells = p.cells.items } };

    ghost invariant = { λ p. IsPicture (record { width = p.width; height = p.height; cells = p.cells.items })
        × (p.covered ≡ false → ShowsAll (record { width = p.width; height = p.height; cells = p.cells.items })) };
}

/// Whether some cell is hidden.
fn some_hidden(cells: &[Pixel]) -> bool
    ensures { result ≡ list_any (λ c. c.hidden) cells.now }
{
    cells.iter().any(|cell| cell.is_hidden())
}

impl Picture {
    ghost use Rattle.dd_grid.specs.Cell.{seen_cell};
    ghost use Rattle.dd_grid.specs.Drawing.{IsPicture, black, filled, blitted, covered, moved_cells, any_hidden, cell_at};

    /// A picture of `w` by `h` black, plain cells.
    pub fn new(alloc: Global, w: u32, h: u32) -> Result<Picture, AllocError>
        requires { IsSize w h }
        ensures { IfOk result (λ p. p ≡ black w h) }
    {
        let cells = vec![in alloc; Pixel::plain(0); w as usize * h as usize]?;
        Ok(Picture {
            width: w,
            height: h,
            cells,
            covered: false,
        })
    }

    pub fn width(&self) -> u32
        ensures width { result ≡ self.now.width }
        ensures picture { IsPicture self.now }
    {
        self.width
    }

    pub fn height(&self) -> u32
        ensures height { result ≡ self.now.height }
        ensures picture { IsPicture self.now }
    {
        self.height
    }

    /// Fills a rectangle with plain cells of one colour.
    pub fn fill(&mut self, r: Rect, colour: u32)
        requires inside { IsTrue (is_inside r self.old.width self.old.height) }
        requires colour { colour < COLOURS }
        ensures drawn { self.new ≡ filled self.old r colour }
        ensures size { SameSize self.old self.new }
    {
        let width = self.width as usize;
        let height = self.height as usize;
        let sides = sides_of(r);
        paint(&mut self.cells, width, height, sides, Pixel::plain(colour));
    }

    /// Draws an image in a rectangle, with plain cells: one colour for each point, row by row.
    pub fn blit(&mut self, r: Rect, colours: &[u32])
        requires inside { IsTrue (is_inside r self.old.width self.old.height) }
        requires colours { All (λ c. c < COLOURS) colours.now }
        requires count { length colours.now ≡ points r }
        ensures drawn { self.new ≡ blitted self.old r colours.now }
        ensures size { SameSize self.old self.new }
    {
        let width = self.width as usize;
        let height = self.height as usize;
        write_image(&mut self.cells, width, height, sides_of(r), colours, false);
    }

    /// Draws an image in a rectangle, with hidden cells: one colour for each point, row by row.
    pub fn cover(&mut self, r: Rect, colours: &[u32])
        requires inside { IsTrue (is_inside r self.old.width self.old.height) }
        requires colours { All (λ c. c < COLOURS) colours.now }
        requires count { length colours.now ≡ points r }
        ensures drawn { self.new ≡ covered self.old r colours.now }
        ensures size { SameSize self.old self.new }
    {
        let width = self.width as usize;
        let height = self.height as usize;
        self.covered = true;
        write_image(&mut self.cells, width, height, sides_of(r), colours, true);
    }

    /// Copies whole cells to the move's destination, as if through a copy of them: source and
    /// destination may overlap.
    pub fn scroll(&mut self, m: Move)
        requires inside { IsTrue (is_move_inside m self.old.width self.old.height) }
        ensures drawn { self.new ≡ moved_cells self.old m }
        ensures size { SameSize self.old self.new }
    {
        let width = self.width as usize;
        let height = self.height as usize;
        move_cells(&mut self.cells, width, height, m);
    }

    /// Whether some cell is hidden. Where nothing was ever covered no cell is looked at.
    pub fn any_hidden(&self) -> bool
        ensures value { result ≡ any_hidden self.now }
        ensures picture { IsPicture self.now }
    {
        self.covered && some_hidden(&self.cells)
    }

    /// The cell at a point.
    fn cell(&self, x: u32, y: u32) -> Pixel
        requires x { x < self.now.width }
        requires y { y < self.now.height }
        ensures { result ≡ cell_at self.now x y }
    {
        self.cells[y as usize * self.width as usize + x as usize]
    }

    /// The colour at a point, shown or not.
    pub fn colour(&self, x: u32, y: u32) -> u32
        requires x { x < self.now.width }
        requires y { y < self.now.height }
        ensures colour { result ≡ (cell_at self.now x y).colour }
        ensures small { result < COLOURS }
    {
        self.cell(x, y).colour()
    }

    /// Whether the cell at a point is hidden.
    pub fn hidden(&self, x: u32, y: u32) -> bool
        requires x { x < self.now.width }
        requires y { y < self.now.height }
        ensures { result ≡ (cell_at self.now x y).hidden }
    {
        self.cell(x, y).is_hidden()
    }

    /// The colour that is seen at a point: black where it is hidden.
    pub fn seen(&self, x: u32, y: u32) -> u32
        requires x { x < self.now.width }
        requires y { y < self.now.height }
        ensures colour { result ≡ seen_cell (cell_at self.now x y) }
        ensures small { result < COLOURS }
    {
        self.cell(x, y).seen()
    }

    /// The cells of the columns `from` to `to - 1` of a row.
    pub(crate) fn run(&self, y: usize, from: usize, to: usize) -> &[Pixel]
        requires row { y < self.now.height }
        requires order { from ≤ to }
        requires inside { to ≤ self.now.width }
        ensures cells { result.now
            ≡ slice_range self.now.cells (y * self.now.width + from) (y * self.now.width + to) }
        ensures len { length result.now + from ≡ to }
    {
        let start = y * self.width as usize;
        &self.cells[start + from..start + to]
    }
}
