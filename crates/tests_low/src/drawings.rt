//! A picture that operations draw, and what is seen of it.

ghost use Rattle.std.specs.Prelude.{IsTrue, IfOk};
ghost use Rattle.dd_ops.specs.Operations.{all_fit};

use dd_geom::{Move, Point, Rect};
use dd_grid::{Picture, Surface};
use dd_ops::{Colours, Op, Ops, apply, fits};
use std::alloc::{AllocError, Global};
use std::process::Abort;
use std::test::Fail;

const RED: u32 = 0xff_0000;

macro_rules! rect {
    ($left:expr, $top:expr, $right:expr, $bottom:expr) => {
        Rect {
            left: $left,
            top: $top,
            right: $right,
            bottom: $bottom,
        }
    };
}

/// One operation, as a table tells it.
#[derive(Clone, Copy)]
enum Draw {
    Fill(Rect, u32),
    Blit(Rect, &'static [u32]),
    Cover(Rect, &'static [u32]),
    Scroll(Move),
}

/// One operation of each kind, the scroll over itself.
static DRAWS: [Draw; 4] = [
    Draw::Fill(rect!(0, 0, 4, 1), RED),
    Draw::Blit(rect!(0, 1, 3, 2), &[1, 2, 3]),
    Draw::Cover(rect!(2, 0, 4, 2), &[4, 5, 6, 7]),
    Draw::Scroll(Move {
        source: Point { x: 1, y: 0 },
        dest: rect!(0, 1, 3, 3),
    }),
];

/// The colours of the picture's cells, and which of them are hidden.
static COLOURS: [[u32; 4]; 3] = [[RED, RED, 4, 5], [RED, 4, 5, 7], [2, 6, 7, 0]];

static HIDDEN: [&[u8; 4]; 3] = [b"..##", b".###", b".##."];

/// What is seen of it.
static SEEN: [[u32; 4]; 3] = [[RED, RED, 0, 0], [RED, 0, 0, 0], [2, 0, 0, 0]];

/// The colours of a table.
fn colours_of(alloc: Global, colours: &[u32]) -> Result<Colours, AllocError> {
    Ok(Colours::from_vec(colours.to_vec(alloc)?))
}

/// The operation that a table tells.
fn op_of(alloc: Global, draw: Draw) -> Result<Op, AllocError> {
    match draw {
        Draw::Fill(rect, colour) => Ok(Op::Fill { rect, colour }),
        Draw::Blit(rect, colours) => Ok(Op::Blit {
            rect,
            colours: colours_of(alloc, colours)?,
        }),
        Draw::Cover(rect, colours) => Ok(Op::Cover {
            rect,
            colours: colours_of(alloc, colours)?,
        }),
        Draw::Scroll(mv) => Ok(Op::Scroll { mv }),
    }
}

/// A list of these operations, each of which fits a surface of 4 by 3 points.
fn ops_of(rt: &impl Abort, alloc: Global, draws: &[Draw]) -> Result<Ops, Fail>
    ensures { IfOk result (λ ops. IsTrue (all_fit 4 3 ops)) }
{
    let mut ops = Ops::new(alloc);
    for draw in draws {
        let op = op_of(alloc, *draw)?;
        assert!(rt; fits(&op, 4, 3));
        ops.push(op)?;
    }
    Ok(ops)
}

/// A point of the picture is as the tables tell.
fn check_point(rt: &impl Abort, picture: &Picture, x: u32, y: u32) {
    assert!(rt; x < picture.width() && x < 4);
    assert!(rt; y < picture.height() && y < 3);
    assert_eq!(rt;
        picture.colour(x, y),
        COLOURS[y as usize][x as usize],
        "({x}, {y})"
    );
    assert_eq!(rt;
        picture.seen(x, y),
        SEEN[y as usize][x as usize],
        "({x}, {y})"
    );
    let hidden = HIDDEN[y as usize][x as usize] == b'#';
    assert!(rt; picture.hidden(x, y) == hidden, "({x}, {y})");
}

#[test]
fn pictures_are_drawn_and_seen(rt: HostRuntime) -> Result<(), Fail> {
    let ops = ops_of(&rt, rt.alloc(), &DRAWS)?;
    let mut picture = Picture::new(rt.alloc(), 4, 3)?;
    apply(&mut picture, &ops);
    assert!(rt; picture.any_hidden());
    for y in 0..3 {
        for x in 0..4 {
            check_point(&rt, &picture, x, y);
        }
    }
    Ok(())
}

#[test]
fn a_surface_takes_what_is_seen(rt: HostRuntime) -> Result<(), Fail> {
    let ops = ops_of(&rt, rt.alloc(), &DRAWS)?;
    let mut picture = Picture::new(rt.alloc(), 4, 3)?;
    apply(&mut picture, &ops);
    let mut surface = Surface::new(rt.alloc(), 4, 3)?;
    surface.take(rect!(0, 0, 4, 3), &picture);
    for (y, row) in (0..).zip(&SEEN) {
        assert!(rt; y < surface.height());
        assert_eq!(rt; surface.row(y), row.as_slice(), "row {y}");
    }
    Ok(())
}
