//! A picture of a client's own, which follows the screen by frames alone.

ghost use Rattle.std.specs.Prelude.{◌≡◌, ◌≤◌, ◌<◌, IsTrue};
ghost use Rattle.dd_geom.specs.Rect.{is_inside};
ghost use Rattle.dd_geom.specs.Grid.{SameSize};
ghost use Rattle.dd_grid.specs.declared.cell.TheConstants.{COLOURS};

use crate::drawer::MODE;
use anyhow::{Context, bail};
use dd_dup::Dup;
use dd_geom::{Rect, move_inside, point_count, rect_inside, sides_of};
use dd_grid::Surface;
use std::alloc::{AllocError, Global};

/// A picture of the screen's size.
#[derive(Drop)]
pub struct Picture {
    surface: Surface,
}

/// The colour of a point.
fn colour_at(surface: &Surface, x: u32, y: u32) -> u32
    requires x { x < surface.now.width }
    requires y { y < surface.now.height }
    ensures { result < COLOURS }
{
    prove!(x < surface.width());
    surface.row(y)[x as usize]
}

/// Copies the points of a rectangle.
fn copy(to: &mut Surface, from: &Surface, r: Rect)
    requires to { IsTrue (is_inside r to.old.width to.old.height) }
    requires from { IsTrue (is_inside r from.now.width from.now.height) }
    ensures { SameSize to.old to.new }
{
    let sides = sides_of(r);
    for y in sides.top..sides.bottom {
        for x in sides.left..sides.right {
            let (x, y) = (x as u32, y as u32);
            to.set(x, y, colour_at(from, x, y));
        }
    }
}

impl Picture {
    /// A black one, as the screen is at first.
    pub fn new(alloc: Global) -> Result<Picture, AllocError> {
        let surface = Surface::new(alloc, MODE.width, MODE.height)?;
        Ok(Picture { surface })
    }

    /// Brings it forward by the frame that a duplicator holds: first the moves, in their order, and
    /// then the dirty rectangles, from the acquired surface. Gives how many points were copied.
    pub fn follow(&mut self, dup: &Dup) -> anyhow::Result<usize> {
        let from = dup.surface().context("no frame is held")?;
        for m in dup.move_list() {
            if !move_inside(*m, self.surface.width(), self.surface.height()) {
                bail!("a move lies outside");
            }
            self.surface.scroll(*m);
        }
        let mut copied = 0usize;
        for r in dup.dirt_list() {
            if !rect_inside(*r, self.surface.width(), self.surface.height())
                || !rect_inside(*r, from.width(), from.height())
            {
                bail!("a dirty rectangle lies outside");
            }
            copy(&mut self.surface, from, *r);
            copied = copied.saturating_add(point_count(*r));
        }
        Ok(copied)
    }

    /// Whether it has the colours of a surface.
    pub fn is_like(&self, other: &Surface) -> bool {
        let same_size = self.surface.width() == other.width()
            && self.surface.height() == other.height();
        same_size && (0..other.height()).all(|y| self.surface.row(y) == other.row(y))
    }
}
