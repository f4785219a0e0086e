//! A set of points as bands: rows that are equal stand once, as runs of columns.

ghost use Rattle.std.specs.Prelude.{◌≡◌, OnOk, OnErr};
ghost use Rattle.dd_geom.specs.Grid.{SameSize};
ghost use Rattle.dd_geom.specs.Rect.{place};

use crate::listing::{push_rects, same_to};
use crate::rows::Rows;
use crate::run::{Run, has_column};
use crate::sweep::{Inside, Patch, sweep};
use crate::tiling::{Tiles, round_rows};
use dd_bits::Area;
use dd_geom::{Move, Rect, Rects, sides_of};
use std::alloc::{AllocError, Global};
use std::marker::Model;

/// A set of points of a surface, as bands of equal rows and the runs of each.
///
/// The bands cover all rows of the surface, and each begins where the one above it ends. A row has
/// its runs from left to right, none of them empty and no two of them touching. A band that is
/// written with the runs of the one above it makes that one longer, and those that a change leaves
/// are carried over as they were, so there are few; but nothing rests on it that two bands that
/// follow each other differ.
///
/// Each change is written beside what stands, and takes its place when it is complete. So a call
/// that gets no memory leaves the set, and the memory of one change serves the next.
#[derive(Debug, Drop)]
pub struct Bands {
    width: u32,
    height: u32,
    rows: Rows,
    spare: Rows,
    row: Vec<Run>,
    spare_row: Vec<Run>,
}

impl Model for Bands {
    ghost use Rattle.std.specs.Prelude.{Bool};
    ghost use Rattle.dd_geom.specs.Grid.{Grid, grid};
    ghost use Rattle.dd_region.specs.Rows.{has_point};
    ghost use Rattle.dd_region.specs.Kept.{AreKept};

    ghost Value = { Grid Bool };

    ghost view = { λ b. grid b.width b.height (has_point b.rows) };

    ghost invariant = { λ b. AreKept b.width b.height b.rows };
}

impl Bands {
    ghost use Rattle.dd_region.specs.Sweep.{IsPatch};
    ghost use Rattle.dd_region.specs.Kept.{patched};

    /// Writes the set with a patch.
    fn write(&mut self, patch: Patch) -> Result<(), AllocError>
        requires { IsPatch patch self.old.width self.old.height }
        ensures ok { OnOk result (self.new ≡ patched self.old patch) }
        ensures err { OnErr result (self.new ≡ self.old) }
        ensures size { SameSize self.old self.new }
    {
        let width = self.width as usize;
        let height = self.height as usize;
        sweep(
            &mut self.spare,
            &mut self.row,
            &self.rows,
            width,
            height,
            patch,
        )?;
        std::mem::swap(&mut self.rows, &mut self.spare);
        Ok(())
    }
}

/// What a move brings between the sides of its destination.
fn source_of(m: Move) -> Inside
    ensures { result ≡ Inside.Source (place m.source.x) (place m.source.y) }
{
    Inside::Source {
        column: usize::try_from(m.source.x).unwrap_or(0),
        row: usize::try_from(m.source.y).unwrap_or(0),
    }
}

impl Area for Bands {
    ghost points = { λ b. b };

    fn empty(alloc: Global, w: u32, h: u32) -> Result<Bands, AllocError> {
        let row = Vec::new(alloc);
        let mut rows = Rows::new(alloc);
        rows.close(&row, h as usize)?;
        Ok(Bands {
            width: w,
            height: h,
            rows,
            spare: Rows::new(alloc),
            row,
            spare_row: Vec::new(alloc),
        })
    }

    /// Takes the copy's memory from the area's own allocator: that of its bands and their runs.
    fn copy(&self) -> Result<Bands, AllocError> {
        let alloc = *self.row.allocator();
        let rows = self.rows.copy()?;
        Ok(Bands {
            width: self.width,
            height: self.height,
            rows,
            spare: Rows::new(alloc),
            row: Vec::new(alloc),
            spare_row: Vec::new(alloc),
        })
    }

    fn add(&mut self, r: Rect) -> Result<(), AllocError> {
        let sides = sides_of(r);
        if self.rows.has_all(sides) {
            return Ok(());
        }
        self.write(Patch {
            sides,
            inside: Inside::Whole,
        })
    }

    fn remove(&mut self, r: Rect) -> Result<(), AllocError> {
        self.write(Patch {
            sides: sides_of(r),
            inside: Inside::Nothing,
        })
    }

    fn move_over(&mut self, m: Move) -> Result<(), AllocError> {
        self.write(Patch {
            sides: sides_of(m.dest),
            inside: source_of(m),
        })
    }

    fn tiles(&mut self, t: u32) -> Result<(), AllocError> {
        let tiles = Tiles {
            side: t as usize,
            width: self.width as usize,
            height: self.height as usize,
        };
        round_rows(
            &mut self.spare,
            &mut self.row,
            &mut self.spare_row,
            &self.rows,
            tiles,
        )?;
        std::mem::swap(&mut self.rows, &mut self.spare);
        Ok(())
    }

    fn has(&self, x: u32, y: u32) -> bool {
        if y >= self.height {
            return false;
        }
        let row = self.rows.at(y as usize, 0);
        x < self.width && has_column(row.runs, x as usize)
    }

    fn is_empty(&self) -> bool {
        self.rows.are_blank(self.height as usize)
    }

    /// Takes the list's memory from the area's own allocator.
    fn list(&self) -> Result<Rects, AllocError> {
        let height = self.height as usize;
        let mut out = Vec::new(*self.row.allocator());
        let mut y = 0;
        let mut band = 0;
        while y < height {
            let row = self.rows.at(y, band);
            let end = same_to(&self.rows, height, y, row);
            push_rects(&mut out, row.runs, y, end)?;
            band = row.band;
            y = end;
        }
        Ok(Rects::from_vec(out))
    }
}
