//! One drawing operation, and whether it fits a surface.

ghost use Rattle.std.specs.Prelude.{◌≡◌, IsTrue, IfOk};
ghost use Rattle.dd_geom.specs.Grid.{SameSize};
ghost use Rattle.dd_ops.specs.Operations.{are_colours as are_all_colours, is_image as is_an_image};
ghost use Rattle.dd_ops.specs.Operations.{fits as fits_surface, all_fit, drawn_by, drawn, seen_drawn_by, seen_drawn};

use crate::lists::{Colours, Ops};
use dd_geom::{Move, Rect, move_inside, point_count, rect_inside};
use dd_grid::{COLOURS, Picture, Surface};
use std::alloc::AllocError;

/// One drawing operation.
#[derive(Debug, Drop)]
pub enum Op {
    /// Draws one colour over a rectangle.
    Fill { rect: Rect, colour: u32 },
    /// Draws an image over a rectangle: a colour for each of its points, row by row.
    Blit { rect: Rect, colours: Colours },
    /// Draws an image over a rectangle, and hides it: it is seen as black.
    Cover { rect: Rect, colours: Colours },
    /// Copies what stands at the move's source to its destination, hidden points too.
    Scroll { mv: Move },
}

impl Op {
    /// An equal operation, on memory of its own.
    pub fn copy(&self) -> Result<Op, AllocError>
        ensures { IfOk result (λ op. op ≡ self.now) }
    {
        match self {
            Op::Fill { rect, colour } => Ok(Op::Fill {
                rect: *rect,
                colour: *colour,
            }),
            Op::Blit { rect, colours } => Ok(Op::Blit {
                rect: *rect,
                colours: colours.copy()?,
            }),
            Op::Cover { rect, colours } => Ok(Op::Cover {
                rect: *rect,
                colours: colours.copy()?,
            }),
            Op::Scroll { mv } => Ok(Op::Scroll { mv: *mv }),
        }
    }
}

/// Whether each of them is a colour.
fn are_colours(colours: &[u32]) -> bool
    ensures { result ≡ are_all_colours colours.now }
{
    colours.iter().all(|colour| *colour < COLOURS)
}

/// Whether the colours are an image for a rectangle of a surface of this size.
fn is_image(rect: Rect, colours: &[u32], w: u32, h: u32) -> bool
    ensures { result ≡ is_an_image w h rect colours.now }
{
    rect_inside(rect, w, h) && colours.len() == point_count(rect) && are_colours(colours)
}

/// Whether the operation may be drawn on a surface of this size: its rectangle or move lies inside,
/// its colours are below 2^24, and an image has one for each point.
pub fn fits(op: &Op, w: u32, h: u32) -> bool
    ensures { result ≡ fits_surface w h op.now }
{
    match op {
        Op::Fill { rect, colour } => rect_inside(*rect, w, h) && *colour < COLOURS,
        Op::Blit { rect, colours } => is_image(*rect, colours.as_slice(), w, h),
        Op::Cover { rect, colours } => is_image(*rect, colours.as_slice(), w, h),
        Op::Scroll { mv } => move_inside(*mv, w, h),
    }
}

/// Draws one operation.
fn draw(p: &mut Picture, op: &Op)
    requires { IsTrue (fits_surface p.old.width p.old.height op.now) }
    ensures drawn { p.new ≡ drawn_by p.old op.now }
    ensures size { SameSize p.old p.new }
{
    match op {
        Op::Fill { rect, colour } => p.fill(*rect, *colour),
        Op::Blit { rect, colours } => p.blit(*rect, colours.as_slice()),
        Op::Cover { rect, colours } => p.cover(*rect, colours.as_slice()),
        Op::Scroll { mv } => p.scroll(*mv),
    }
}

/// Draws operations in order.
fn draw_all(p: &mut Picture, ops: &[Op])
    requires { IsTrue (all_fit p.old.width p.old.height ops.now) }
    ensures drawn { p.new ≡ drawn p.old ops.now }
    ensures size { SameSize p.old p.new }
{
    for op in ops {
        draw(p, op);
    }
}

/// Draws the operations in order. Each has to fit the picture.
pub fn apply(p: &mut Picture, ops: &Ops)
    requires { IsTrue (all_fit p.old.width p.old.height ops.now) }
    ensures drawn { p.new ≡ drawn p.old ops.now }
    ensures size { SameSize p.old p.new }
{
    draw_all(p, ops.as_slice());
}

/// Draws on a surface what is seen of one operation.
fn draw_seen(s: &mut Surface, op: &Op)
    requires { IsTrue (fits_surface s.old.width s.old.height op.now) }
    ensures drawn { s.new ≡ seen_drawn_by s.old op.now }
    ensures size { SameSize s.old s.new }
{
    match op {
        Op::Fill { rect, colour } => s.fill(*rect, *colour),
        Op::Blit { rect, colours } => s.blit(*rect, colours.as_slice()),
        Op::Cover { rect, .. } => s.fill(*rect, 0),
        Op::Scroll { mv } => s.scroll(*mv),
    }
}

/// Draws on a surface what is seen of operations, in order.
fn draw_all_seen(s: &mut Surface, ops: &[Op])
    requires { IsTrue (all_fit s.old.width s.old.height ops.now) }
    ensures drawn { s.new ≡ seen_drawn s.old ops.now }
    ensures size { SameSize s.old s.new }
{
    for op in ops {
        draw_seen(s, op);
    }
}

/// Draws on a surface what is seen of the operations, in order: an image that is hidden is black.
/// Each has to fit the surface. It takes no memory.
pub fn apply_seen(s: &mut Surface, ops: &Ops)
    requires { IsTrue (all_fit s.old.width s.old.height ops.now) }
    ensures drawn { s.new ≡ seen_drawn s.old ops.now }
    ensures size { SameSize s.old s.new }
{
    draw_all_seen(s, ops.as_slice());
}
