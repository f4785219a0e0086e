//! The thread that draws, and waits at fixed steps until the clients have looked.

ghost use Rattle.std.specs.Prelude.{◌≡◌, ◌≤◌, IfOk};
ghost use Rattle.dd_log.specs.declared.events.TheConstants.{MAX_CAPACITY};

use anyhow::Context;
use crossbeam_channel::{Receiver, Sender};
use dd_board::{Actor, Named, Screen, Told};
use dd_geom::{Move, Point, Rect};
use dd_log::{Apps, Draw, Spec};
use dd_modes::{Mode, Modes, Rotation};
use dd_ops::{Op, Ops, OpsFault};
use std::alloc::Global;
use std::sync::Wait;

/// The screen: 64 by 36 points.
pub const MODE: Mode = Mode {
    width: 64,
    height: 36,
    rotation: Rotation::Identity,
};

/// How many presents are drawn.
const STEPS: u32 = 12;

/// Of a client: which steps it is told of, how, and how it says that it has looked.
#[derive(Drop)]
pub struct Watcher<L: Named> {
    pub every: u32,
    pub told: Sender<Told<L>>,
    pub looked: Receiver<()>,
}

/// An output with this screen, whose list has room for the presents and for what clients enter.
pub fn spec(alloc: Global) -> anyhow::Result<Spec>
    ensures some { IfOk result (λ spec. 1 ≤ spec.capacity) }
    ensures few { IfOk result (λ spec. spec.capacity ≤ MAX_CAPACITY) }
{
    Ok(Spec {
        modes: Modes::from_vec([MODE].to_vec(alloc)?).context("no such mode")?,
        capacity: STEPS + 20,
        privileged: Apps::from_vec(Vec::new(alloc)),
    })
}

fn rect(left: i32, top: i32, right: i32, bottom: i32) -> Rect {
    Rect {
        left,
        top,
        right,
        bottom,
    }
}

/// What a step draws. The first fills the screen; each third scrolls it up by four rows and fills
/// the last four; each other one fills a box, further to the right each time.
fn drawing(alloc: Global, step: u32) -> Result<Draw, OpsFault>
    requires { step ≤ STEPS }
{
    let colour = step * 0x10_10_10;
    let left = step as i32 * 4;
    let mut ops = Ops::new(alloc);
    if step % 3 == 0 {
        let source = Point { x: 0, y: 4 };
        let dest = rect(0, 0, 64, 32);
        ops.push(Op::Scroll {
            mv: Move { source, dest },
        })?;
    }
    let rect = match step {
        1 => rect(0, 0, 64, 36),
        3 | 6 | 9 | 12 => rect(0, 32, 64, 36),
        _ => rect(left, 8, left + 8, 12),
    };
    ops.push(Op::Fill { rect, colour })?;
    Ok(Draw::Present(ops))
}

/// Draws all steps. At each it tells the clients that want it, which look side by side, and waits
/// for them: so what they see hangs on no scheduler. A client that has gone is waited for no more.
pub fn draw<L: Named, R: Wait>(
    rt: &R,
    alloc: Global,
    screen: &Screen<L>,
    drawer: Actor<L>,
    watchers: [Watcher<L>; 2],
) -> anyhow::Result<()> {
    let mut drawer = drawer;
    for watcher in &watchers {
        let _ = watcher.looked.recv(rt); // until its duplicator is open
    }
    for step in 1..=STEPS {
        let drawn = screen.draw(rt, &mut drawer, step, drawing(alloc, step)?)?;
        drawn.answer?;
        for watcher in &watchers {
            if step.is_multiple_of(watcher.every) {
                let _ = watcher.told.send(rt, drawn.told.again());
            }
        }
        for watcher in &watchers {
            if step.is_multiple_of(watcher.every) {
                let _ = watcher.looked.recv(rt);
            }
        }
    }
    Ok(())
}
