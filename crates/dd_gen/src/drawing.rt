//! What is drawn in a round, told by numbers that are drawn in order.

ghost use Rattle.std.specs.Prelude.{◌≡◌, ◌+◌, ◌<◌, ◌≤◌, ◌++◌, ◌∷◌, [], length, IfOk, OnOk};
ghost use Rattle.dd_gen.specs.Generator.{rect_at, scroll_to, fill, fills, scroll, operations};

use crate::generator::Generator;
use dd_geom::{Move, Point, Rect};
use dd_ops::{Op, Ops};
use std::alloc::{AllocError, Global};

/// The width of the screen, in pixels.
pub(crate) const WIDTH: u32 = 1920;

/// And its height.
pub(crate) const HEIGHT: u32 = 1080;

/// How many rows a scroll copies.
const SCROLLED_ROWS: u32 = 280;

/// How many rows further up they stand then.
const ROWS_UPWARD: u32 = 40;

/// The rectangle of a width and a height whose first point is (x, y).
fn rect_at(x: u32, y: u32, width: u32, height: u32) -> Rect
    requires right { x + width < 4096 }
    requires bottom { y + height < 4096 }
    ensures { result ≡ rect_at x y width height }
{
    Rect {
        left: x as i32,
        top: y as i32,
        right: (x + width) as i32,
        bottom: (y + height) as i32,
    }
}

/// A fill of 20 to 119 by 10 to 79 points, in any colour.
#[tactic(auto, unfolding(crate::specs::Generator::fill))]
fn fill(numbers: &mut Generator) -> Op
    ensures value { result ≡ (fill numbers.old).value }
    ensures state { numbers.new ≡ (fill numbers.old).state }
{
    let x = numbers.draw(1800);
    let y = numbers.draw(1000);
    let width = 20 + numbers.draw(100);
    let height = 10 + numbers.draw(70);
    let high = numbers.draw(65_536);
    let low = numbers.draw(256);
    Op::Fill {
        rect: rect_at(x, y, width, height),
        colour: 256 * high + low,
    }
}

/// Adds an operation to fewer than 64, so that nothing but memory may be wanting.
fn add(ops: &mut Ops, op: Op) -> Result<(), AllocError>
    requires { length ops.old < 64 }
    ensures { OnOk result (ops.new ≡ ops.old ++ op ∷ []) }
{
    ops.push(op).map_err(|_| AllocError)
}

/// At most 64 fills, in order.
#[tactic(auto, unfolding(crate::specs::Generator::fills))]
fn fills(alloc: Global, numbers: &mut Generator, count: u32) -> Result<Ops, AllocError>
    requires { count ≤ 64 }
    ensures value { IfOk result (λ ops. ops ≡ (fills count numbers.old).value) }
    ensures state { OnOk result (numbers.new ≡ (fills count numbers.old).state) }
{
    let mut ops = Ops::new(alloc);
    for _ in 0..count {
        add(&mut ops, fill(numbers))?;
    }
    Ok(ops)
}

/// A copy of whole rows, further up, to those from `top` on.
fn scroll_to(top: u32) -> Op
    requires { top < 1024 }
    ensures { result ≡ scroll_to top }
{
    let source = Point {
        x: 0,
        y: (top + ROWS_UPWARD) as i32,
    };
    let dest = rect_at(0, top, WIDTH, SCROLLED_ROWS);
    Op::Scroll {
        mv: Move { source, dest },
    }
}

/// A scroll to rows whose first is a multiple of 40.
#[tactic(auto, unfolding(crate::specs::Generator::scroll))]
fn scroll(numbers: &mut Generator) -> Op
    ensures value { result ≡ (scroll numbers.old).value }
    ensures state { numbers.new ≡ (scroll numbers.old).state }
{
    scroll_to(40 * numbers.draw(20))
}

/// A list of one scroll.
fn one_scroll(alloc: Global, numbers: &mut Generator) -> Result<Ops, AllocError>
    ensures value { IfOk result (λ ops. ops ≡ (scroll numbers.old).value ∷ []) }
    ensures state { OnOk result (numbers.new ≡ (scroll numbers.old).state) }
{
    let mut ops = Ops::new(alloc);
    add(&mut ops, scroll(numbers))?;
    Ok(ops)
}

/// The operations of a round: in each fifth round one scroll, else one to four fills.
#[tactic(auto, unfolding(crate::specs::Generator::operations))]
pub(crate) fn operations(
    alloc: Global,
    numbers: &mut Generator,
    round: u32,
) -> Result<Ops, AllocError>
    ensures value { IfOk result (λ ops. ops ≡ (operations round numbers.old).value) }
    ensures state { OnOk result (numbers.new ≡ (operations round numbers.old).state) }
{
    if round % 5 == 0 {
        return one_scroll(alloc, numbers);
    }
    let count = 1 + numbers.draw(4);
    fills(alloc, numbers, count)
}
