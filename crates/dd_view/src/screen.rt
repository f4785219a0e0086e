//! The screen that a record's chunks make: a surface, and a pointer beside it.

ghost use Rattle.std.specs.Prelude.{◌≡◌, ℕ, ◌<◌, ◌≤◌, length, All, IsTrue, IfOk};
ghost use Rattle.std.specs.List.{list_all};
ghost use Rattle.dd_geom.specs.Rect.{IsSize, is_inside, is_move_inside, points};
ghost use Rattle.dd_geom.specs.Grid.{SameSize, row};
ghost use Rattle.dd_geom.specs.declared.rect.TheConstants.{MAX_SIDE};
ghost use Rattle.dd_grid.specs.Drawing.{imaged};
ghost use Rattle.dd_view.specs.Screens.{row_at};
ghost use Rattle.dd_grid.specs.declared.cell.TheConstants.{COLOURS};
ghost use Rattle.dd_acc.specs.Rebuild.{all_moved};
ghost use Rattle.dd_record.specs.Dirt.{pixel_count};
ghost use Rattle.dd_record.specs.Fitting.{FitsSurface};
ghost use Rattle.dd_view.specs.Playing.{pasted, with_shape};

use dd_geom::{Move, Point, Rect, point_count};
use dd_grid::Surface;
use dd_log::Pointer;
use dd_modes::Mode;
use dd_pointer::{Shape, compose};
use dd_record::FrameChunk;
use std::alloc::{AllocError, Global};
use std::marker::Model;

/// The surface of the last opening chunk, without its pointer; the pointer, and its shape, if it has
/// one. The surface has the mode's size.
#[derive(Debug, Drop)]
pub(crate) struct Screen {
    mode: Mode,
    surface: Surface,
    pointer: Pointer,
    shape: Option<Shape>,
}

impl Model for Screen {
    ghost use Rattle.dd_view.specs.Playing.{Screen};

    ghost Value = { Screen };

    ghost use Rattle.dd_view.specs.Screens.{screen, IsScreen};

    ghost view = { screen };

    ghost invariant = { IsScreen };
}

/// The picture that is shown of a screen, and its mode, whose size it has.
#[derive(Debug, Drop)]
pub(crate) struct Shown {
    surface: Surface,
    mode: Mode,
}

impl Model for Shown {
    ghost use Rattle.dd_view.specs.Playing.{Shown};

    ghost Value = { Shown };

    ghost use Rattle.dd_view.specs.Ppm.{HasSizeOf};

    ghost view = { λ s. record { surface = s.surface; mode = s.mode } };

    ghost invariant = { λ s. HasSizeOf s.mode s.surface };
}

/// Does the moves in order.
fn move_all(surface: &mut Surface, moves: &[Move])
    requires { IsTrue (list_all (λ m. is_move_inside m surface.old.width surface.old.height) moves.now) }
    ensures moved { surface.new ≡ all_moved surface.old moves.now }
    ensures size { SameSize surface.old surface.new }
{
    for m in moves {
        surface.scroll(*m);
    }
}

/// Puts pixels into their rectangles, one rectangle after another.
fn paste(surface: &mut Surface, rects: &[Rect], pixels: &[u32])
    requires inside { IsTrue (list_all (λ r. is_inside r surface.old.width surface.old.height) rects.now) }
    requires count { length pixels.now ≡ pixel_count rects.now }
    requires colours { All (λ c. c < COLOURS) pixels.now }
    ensures pasted { surface.new ≡ pasted surface.old rects.now pixels.now }
    ensures size { SameSize surface.old surface.new }
{
    let mut rest = pixels;
    for rect in rects {
        let (now, later) = rest.split_at(point_count(*rect));
        surface.blit(*rect, now);
        rest = later;
    }
}

/// The rectangle of one row.
fn row_at(width: u32, y: u32) -> Rect
    requires wide { width ≤ MAX_SIDE }
    requires high { y < MAX_SIDE }
    ensures { result ≡ row_at width y }
{
    Rect {
        left: 0,
        top: y as i32,
        right: width as i32,
        bottom: y as i32 + 1,
    }
}

/// Copies one row.
fn copy_row(to: &mut Surface, from: &Surface, y: u32)
    requires size { SameSize from.now to.old }
    requires row { y < from.now.height }
    ensures drawn { to.new ≡ imaged to.old (row_at from.now.width y) (row from.now y) }
    ensures size { SameSize to.old to.new }
{
    to.blit(row_at(from.width(), y), from.row(y));
}

/// A surface of the same colours.
fn copied(alloc: Global, surface: &Surface) -> Result<Surface, AllocError>
    ensures { IfOk result (λ s. s ≡ surface.now) }
{
    let mut copy = Surface::new(alloc, surface.width(), surface.height())?;
    for y in 0..surface.height() {
        copy_row(&mut copy, surface, y);
    }
    Ok(copy)
}

/// Draws the pointer's shape, where it is visible and has one.
fn draw_pointer(surface: &mut Surface, pointer: Pointer, shape: &Option<Shape>)
    ensures drawn { surface.new ≡ with_shape surface.old pointer shape.now }
    ensures size { SameSize surface.old surface.new }
{
    if let Some(shape) = shape
        && pointer.visible
    {
        compose(surface, shape, pointer.position);
    }
}

impl Screen {
    ghost use Rattle.dd_view.specs.Playing.{opened, framed, shown_of};

    /// A black surface, and a pointer that isn't visible and has no shape.
    pub fn open(alloc: Global, mode: Mode) -> Result<Screen, AllocError>
        requires { IsSize mode.width mode.height }
        ensures { IfOk result (λ s. s ≡ opened mode) }
    {
        let surface = Surface::new(alloc, mode.width, mode.height)?;
        let pointer = Pointer {
            position: Point { x: 0, y: 0 },
            visible: false,
        };
        Ok(Screen {
            mode,
            surface,
            pointer,
            shape: None,
        })
    }

    pub fn mode(&self) -> Mode
        ensures value { result ≡ self.now.mode }
        ensures size { IsSize result.width result.height }
    {
        self.mode
    }

    /// The screen after a frame. It takes no memory.
    pub fn framed(self, frame: FrameChunk) -> Screen
        requires { FitsSurface self.mode frame }
        ensures { result ≡ framed self frame }
    {
        let Screen {
            mode,
            mut surface,
            shape: old_shape,
            ..
        } = self;
        let FrameChunk {
            info,
            moves,
            dirt,
            pixels,
            shape,
        } = frame;
        move_all(&mut surface, moves.as_slice());
        paste(&mut surface, dirt.as_slice(), pixels.as_slice());
        Screen {
            mode,
            surface,
            pointer: info.pointer,
            shape: shape.or(old_shape),
        }
    }

    /// What is shown of the screen, on memory of its own.
    pub fn shown(&self, alloc: Global) -> Result<Shown, AllocError>
        ensures { IfOk result (λ s. s ≡ shown_of self.now) }
    {
        let mut surface = copied(alloc, &self.surface)?;
        draw_pointer(&mut surface, self.pointer, &self.shape);
        Ok(Shown {
            surface,
            mode: self.mode,
        })
    }
}

impl Shown {
    ghost use Rattle.dd_view.specs.Ppm.{HasSizeOf};

    pub fn surface(&self) -> &Surface
        ensures value { result.now ≡ self.now.surface }
        ensures size { HasSizeOf self.now.mode result.now }
    {
        &self.surface
    }

    pub fn mode(&self) -> Mode
        ensures { result ≡ self.now.mode }
    {
        self.mode
    }
}
