//! A set of points of a surface, and how it is told as a list of rectangles.
//!
//! **The set.** Any points of one surface: each of them is in it or isn't. A set begins empty. Then
//! rectangles are added and taken out, moves carry it over, and tiles round it. No point outside the surface is
//! ever in it.
//!
//! **The list.** A set can be cut into rectangles in many ways. The canonical list is one of them,
//! the y-x banded form in which X11 and pixman keep their regions:
//!
//! 1. Rows that follow each other and have the same points are one band, as high as it can be.
//! 2. Marked columns that follow each other in a band are one run, as wide as it can be.
//! 3. Each run of each band is one rectangle: the run's columns in the band's rows.
//!
//! So the rectangles of a band begin at one row and end at one row, no two of them touch, and no two
//! rectangles of the list overlap. Two rectangles that overlap are cut into three bands:
//!
//! ```text
//!     +---------+                 +---------+
//!     |         |                 |    1    |
//!     |    +----+----+            +---------+----+
//!     |    |    |    |    --->    |      2       |
//!     +----+----+    |            +----+---------+
//!          |         |                 |    3    |
//!          +---------+                 +---------+
//! ```
//!
//! **The two orders.** Bands come from the top down, and the runs of a band from left to right. So
//! the list is sorted by top, then left, and a set has one list alone: two sets of one surface are
//! equal exactly where their lists are.
//!
//! **Not promised** is how a set is kept: as a cell for each point, as bands with their runs, or in
//! another way. Of two equal sets one may be kept otherwise than the other. Bands that are kept may
//! equal their neighbours: the list merges them. Which calls take memory is for each kind to say.

ghost use Rattle.std.specs.Prelude.{◌≡◌, ◌≤◌, ◌↔◌, Bool, IsTrue, IfOk, OnOk, OnErr};
ghost use Rattle.dd_geom.specs.Grid.{Grid, SameSize};
ghost use Rattle.dd_geom.specs.Rect.{IsSize, is_inside, is_move_inside};
ghost use Rattle.dd_bits.specs.Area.{IsArea, IsNowhere, is_in, nowhere, with_rect, without_rect, moved_over};
ghost use Rattle.dd_bits.specs.CanonicalList.{canonical_list};
ghost use Rattle.dd_bits.specs.Tiles.{tiles};

use dd_geom::{Move, Rect, Rects};
use std::alloc::{AllocError, Global};

/// A set of points of a surface.
pub trait Area: Sized + Drop {
    ghost points: { Self → Grid Bool };

    /// The empty set of a surface of `w` by `h` points.
    fn empty(alloc: Global, w: u32, h: u32) -> Result<Self, AllocError>
        requires { IsSize w h }
        ensures { IfOk result (λ a. points a ≡ nowhere w h) };

    /// An equal set, on memory of its own.
    fn copy(&self) -> Result<Self, AllocError>
        ensures { IfOk result (λ a. points a ≡ points self.now) };

    /// Adds each point of the rectangle.
    fn add(&mut self, r: Rect) -> Result<(), AllocError>
        requires { IsTrue (is_inside r (points self.old).width (points self.old).height) }
        ensures ok { OnOk result (points self.new ≡ with_rect (points self.old) r) }
        ensures err { OnErr result (points self.new ≡ points self.old) }
        ensures size { SameSize (points self.old) (points self.new) };

    /// Takes out each point of the rectangle.
    fn remove(&mut self, r: Rect) -> Result<(), AllocError>
        requires { IsTrue (is_inside r (points self.old).width (points self.old).height) }
        ensures ok { OnOk result (points self.new ≡ without_rect (points self.old) r) }
        ensures err { OnErr result (points self.new ≡ points self.old) }
        ensures size { SameSize (points self.old) (points self.new) };

    /// Carries the set over by a move: each point of the destination is in the new set exactly where
    /// its source point was in the old one, and the other points stay.
    fn move_over(&mut self, m: Move) -> Result<(), AllocError>
        requires { IsTrue (is_move_inside m (points self.old).width (points self.old).height) }
        ensures ok { OnOk result (points self.new ≡ moved_over (points self.old) m) }
        ensures err { OnErr result (points self.new ≡ points self.old) }
        ensures size { SameSize (points self.old) (points self.new) };

    /// Rounds the set to tiles of side `t`, counted from the top left corner: all points of the
    /// surface whose tile has a point of the set.
    fn tiles(&mut self, t: u32) -> Result<(), AllocError>
        requires { 1 ≤ t }
        ensures ok { OnOk result (points self.new ≡ tiles t (points self.old)) }
        ensures err { OnErr result (points self.new ≡ points self.old) }
        ensures size { SameSize (points self.old) (points self.new) };

    /// Whether the point is in the set. No point outside the surface is.
    fn has(&self, x: u32, y: u32) -> bool
        ensures { result ≡ is_in (points self.now) x y };

    /// Whether no point is in the set.
    fn is_empty(&self) -> bool
        ensures empty { IsTrue result ↔ IsNowhere (points self.now) }
        ensures area { IsArea (points self.now) };

    /// The set as rectangles: for each band of equal rows one for each maximal run of columns, sorted
    /// by top, then left. No other list of rectangles tells this set in this form.
    fn list(&self) -> Result<Rects, AllocError>
        ensures list { IfOk result (λ l. l ≡ canonical_list (points self.now)) }
        ensures area { IsArea (points self.now) };
}
