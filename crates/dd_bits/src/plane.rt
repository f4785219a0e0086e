//! A set of points as a plane: one cell for each point of the surface, row by row.

ghost use Rattle.std.specs.Prelude.{◌≡◌, ◌≤◌, ◌<◌, length};
ghost use Rattle.dd_geom.specs.Grid.{SameSize, row};

use crate::area::Area;
use crate::runs::push_runs;
use crate::tiling::{has_marked, round_to_tiles};
use dd_geom::{Move, Rect, Rects, paint, scroll, sides_of};
use std::alloc::{AllocError, Global};
use std::marker::Model;

/// A set of points, as one cell for each point of its surface: a byte a point.
///
/// The size is one that surfaces have, and there are as many cells as points.
#[derive(Debug, Drop)]
pub struct Plane {
    width: u32,
    height: u32,
    cells: Vec<bool>,
}

impl Model for Plane {
    ghost use Rattle.std.specs.Prelude.{Bool};
    ghost use Rattle.dd_geom.specs.Grid.{Grid};
    ghost use Rattle.dd_bits.specs.Area.{IsArea};

    ghost Value = { Grid Bool };

    ghost view = { λ p. record { width = p.width; height = p.height; cells = p.cells.items } };

    ghost invariant = { λ p.
        IsArea (record { width = p.width; height = p.height; cells = p.cells.items }) };
}

impl Plane {
    ghost use Rattle.dd_bits.specs.Area.{IsArea};
    ghost use Rattle.dd_bits.specs.CanonicalList.{band_end};

    /// The cells of a row.
    fn row(&self, y: u32) -> &[bool]
        requires { y < self.now.height }
        ensures cells { result.now ≡ row self.now y }
        ensures width { length result.now ≡ self.now.width }
        ensures area { IsArea self.now }
    {
        let width = self.width as usize;
        let start = y as usize * width;
        &self.cells[start..start + width]
    }

    /// The first row below row `y` that differs from it, or the surface's height where there is none.
    fn band_end(&self, y: u32) -> u32
        requires { y < self.now.height }
        ensures { result ≡ band_end self.now y }
    {
        let first = self.row(y);
        for z in y + 1..self.height {
            if self.row(z) != first {
                return z;
            }
        }
        self.height
    }
}

impl Area for Plane {
    ghost use Rattle.std.specs.Prelude.{IsTrue, IsOk, OnOk, OnErr};
    ghost use Rattle.dd_geom.specs.Rect.{is_inside, is_move_inside};
    ghost use Rattle.dd_bits.specs.Area.{with_rect, without_rect, moved_over};
    ghost use Rattle.dd_bits.specs.Tiles.{tiles};

    ghost points = { λ p. p };

    fn empty(alloc: Global, w: u32, h: u32) -> Result<Plane, AllocError> {
        let cells = vec![in alloc; false; w as usize * h as usize]?;
        Ok(Plane {
            width: w,
            height: h,
            cells,
        })
    }

    /// Takes the copy's memory from the plane's own allocator.
    fn copy(&self) -> Result<Plane, AllocError> {
        let cells = Vec::from_slice(*self.cells.allocator(), self.cells.as_slice())?;
        Ok(Plane {
            width: self.width,
            height: self.height,
            cells,
        })
    }

    /// Takes no memory.
    fn add(&mut self, r: Rect) -> Result<(), AllocError>
        requires { IsTrue (is_inside r self.old.width self.old.height) }
        ensures succeeds { IsOk result }
        ensures ok { OnOk result (self.new ≡ with_rect self.old r) }
        ensures err { OnErr result (self.new ≡ self.old) }
        ensures size { SameSize self.old self.new }
    {
        let width = self.width as usize;
        let height = self.height as usize;
        paint(&mut self.cells, width, height, sides_of(r), true);
        Ok(())
    }

    /// Takes no memory.
    fn remove(&mut self, r: Rect) -> Result<(), AllocError>
        requires { IsTrue (is_inside r self.old.width self.old.height) }
        ensures succeeds { IsOk result }
        ensures ok { OnOk result (self.new ≡ without_rect self.old r) }
        ensures err { OnErr result (self.new ≡ self.old) }
        ensures size { SameSize self.old self.new }
    {
        let width = self.width as usize;
        let height = self.height as usize;
        paint(&mut self.cells, width, height, sides_of(r), false);
        Ok(())
    }

    /// Takes no memory.
    fn move_over(&mut self, m: Move) -> Result<(), AllocError>
        requires { IsTrue (is_move_inside m self.old.width self.old.height) }
        ensures succeeds { IsOk result }
        ensures ok { OnOk result (self.new ≡ moved_over self.old m) }
        ensures err { OnErr result (self.new ≡ self.old) }
        ensures size { SameSize self.old self.new }
    {
        let width = self.width as usize;
        let height = self.height as usize;
        scroll(&mut self.cells, width, height, m);
        Ok(())
    }

    /// Takes no memory.
    fn tiles(&mut self, t: u32) -> Result<(), AllocError>
        requires { 1 ≤ t }
        ensures succeeds { IsOk result }
        ensures ok { OnOk result (self.new ≡ tiles t self.old) }
        ensures err { OnErr result (self.new ≡ self.old) }
        ensures size { SameSize self.old self.new }
    {
        let width = self.width as usize;
        let height = self.height as usize;
        if t > 1 {
            round_to_tiles(&mut self.cells, width, height, t as usize);
        }
        Ok(())
    }

    fn has(&self, x: u32, y: u32) -> bool {
        x < self.width
            && y < self.height
            && self.cells[y as usize * self.width as usize + x as usize]
    }

    fn is_empty(&self) -> bool {
        !has_marked(&self.cells)
    }

    /// Takes the list's memory from the plane's own allocator.
    fn list(&self) -> Result<Rects, AllocError> {
        let mut out = Vec::new(*self.cells.allocator());
        let mut y = 0;
        while y < self.height {
            let end = self.band_end(y);
            push_runs(&mut out, self.row(y), y, end)?;
            y = end;
        }
        Ok(Rects::from_vec(out))
    }
}
