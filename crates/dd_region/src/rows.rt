//! The rows of a set, as bands of equal rows.

use crate::run::{Run, has_columns, same_runs};
use dd_geom::Sides;
use std::alloc::{AllocError, Global};

/// Equal rows: those from the end of the band above to `bottom - 1`. Their runs are those from
/// `start` to `end - 1` among the runs of all bands.
#[derive(Clone, Copy, Debug)]
pub struct Band {
    pub bottom: usize,
    pub start: usize,
    pub end: usize,
}

/// Bands of rows from the first row on, each with its runs.
#[derive(Debug, Drop)]
pub struct Rows {
    pub runs: Vec<Run>,
    pub bands: Vec<Band>,
}

/// The runs of a row, the band that it lies in, and the row up to which all have these runs.
#[derive(Clone, Copy, Debug)]
pub struct Row<'a> {
    pub runs: &'a [Run],
    pub band: usize,
    pub bottom: usize,
}

impl Rows {
    ghost use Rattle.std.specs.Prelude.{◌≡◌, ℕ, ◌<◌, ◌≤◌, ◌↔◌, length, slice_index_or, IsTrue, IfOk, OnOk};
    ghost use Rattle.std.specs.Bool.{OnTrue};
    ghost use Rattle.dd_region.specs.declared.rows.Band.{Band};
    ghost use Rattle.dd_region.specs.Runs.{IsRow};
    ghost use Rattle.dd_region.specs.Rows.{row_at, depth, last_runs, AreRows, HasAll, AreBlank, ArePassed, HasBandMore};

    /// No rows.
    pub fn new(alloc: Global) -> Rows
        ensures rows { AreRows result }
        ensures depth { depth result ≡ 0 }
    {
        Rows {
            runs: Vec::new(alloc),
            bands: Vec::new(alloc),
        }
    }

    /// The same bands and runs, on memory of their own.
    pub fn copy(&self) -> Result<Rows, AllocError>
        ensures runs { IfOk result (λ rows. rows.runs.items ≡ self.now.runs.items) }
        ensures bands { IfOk result (λ rows. rows.bands.items ≡ self.now.bands.items) }
    {
        let alloc = *self.runs.allocator();
        Ok(Rows {
            runs: Vec::from_slice(alloc, self.runs.as_slice())?,
            bands: Vec::from_slice(alloc, self.bands.as_slice())?,
        })
    }

    /// Takes all rows out, and keeps the memory.
    pub fn clear(&mut self)
        ensures rows { AreRows self.new }
        ensures depth { depth self.new ≡ 0 }
    {
        self.runs.clear();
        self.bands.clear();
    }

    /// The band of row `y`, where none of those before the band `from` has it.
    pub fn find(&self, y: usize, from: usize) -> usize
        requires row { y < depth self.now }
        requires passed { ArePassed self.now from y }
        ensures later { from ≤ result }
        ensures within { result < length self.now.bands.items }
        ensures passed { ArePassed self.now result y }
        ensures found { (d : Band) → y < (slice_index_or self.now.bands.items result d).bottom }
    {
        let mut band = from;
        while self.bands[band].bottom <= y {
            band += 1;
        }
        band
    }

    /// Row `y`, where none of the bands before the band `from` has it.
    pub fn at(&self, y: usize, from: usize) -> Row<'_>
        requires rows { AreRows self.now }
        requires row { y < depth self.now }
        requires passed { ArePassed self.now from y }
        ensures runs { result.runs.now ≡ row_at self.now y }
        ensures row { IsRow result.runs.now }
        ensures below { y < result.bottom }
        ensures within { result.bottom ≤ depth self.now }
        ensures same { (z : ℕ) → y ≤ z → z < result.bottom → row_at self.now z ≡ row_at self.now y }
        ensures passed { ArePassed self.now result.band y }
    {
        let band = self.find(y, from);
        let rows = self.bands[band];
        Row {
            runs: &self.runs[rows.start..rows.end],
            band,
            bottom: rows.bottom,
        }
    }

    /// Whether no row has a run.
    pub fn are_blank(&self, height: usize) -> bool
        requires rows { AreRows self.now }
        requires height { height ≡ depth self.now }
        ensures { IsTrue result ↔ AreBlank self.now }
    {
        let mut y = 0;
        let mut band = 0;
        while y < height {
            let row = self.at(y, band);
            if !row.runs.is_empty() {
                return false;
            }
            band = row.band;
            y = row.bottom;
        }
        true
    }

    /// Whether each row between the sides has one run with all columns between them.
    pub fn has_all(&self, sides: Sides) -> bool
        requires rows { AreRows self.now }
        requires deep { sides.bottom ≤ depth self.now }
        ensures { OnTrue result (HasAll self.now sides) }
    {
        let mut y = sides.top;
        let mut band = 0;
        while y < sides.bottom {
            let row = self.at(y, band);
            if !has_columns(row.runs, sides.left, sides.right) {
                return false;
            }
            band = row.band;
            y = row.bottom;
        }
        true
    }

    /// Whether the last band has these runs.
    fn ends_with(&self, row: &[Run]) -> bool
        requires { AreRows self.now }
        ensures some { OnTrue result (0 < length self.now.bands.items) }
        ensures last { OnTrue result ((d : Band) → last_runs self.now d ≡ row.now) }
    {
        let count = self.bands.len();
        if count == 0 {
            return false;
        }
        let last = self.bands[count - 1];
        same_runs(&self.runs[last.start..last.end], row)
    }

    /// Lets the last band end at `bottom - 1`.
    fn lengthen(&mut self, bottom: usize)
        requires rows { AreRows self.old }
        requires some { 0 < length self.old.bands.items }
        requires bottom { depth self.old ≤ bottom }
        ensures { (d : Band) → HasBandMore self.old (last_runs self.old d) bottom self.new }
    {
        let count = self.bands.len();
        self.bands[count - 1].bottom = bottom;
    }

    /// Adds the rows down to `bottom - 1`, with these runs: a band more, or a longer last one where it
    /// has the same.
    pub fn close(&mut self, row: &[Run], bottom: usize) -> Result<(), AllocError>
        requires rows { AreRows self.old }
        requires row { IsRow row.now }
        requires bottom { depth self.old ≤ bottom }
        ensures { OnOk result (HasBandMore self.old row.now bottom self.new) }
    {
        if self.ends_with(row) {
            self.lengthen(bottom);
            return Ok(());
        }
        let start = self.runs.len();
        self.runs.extend_from_slice(row)?;
        let end = self.runs.len();
        self.bands.push(Band { bottom, start, end })?;
        Ok(())
    }
}
