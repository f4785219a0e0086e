//! The hidden points of a picture, brought forward without its colours.

ghost use Rattle.std.specs.Prelude.{◌≡◌, IsTrue, OnOk};
ghost use Rattle.dd_geom.specs.Grid.{SameSize};
ghost use Rattle.dd_geom.specs.Rect.{is_inside, is_move_inside};
ghost use Rattle.dd_bits.specs.Area.{without_rect, moved_over};
ghost use Rattle.dd_ops.specs.Operations.{fits, all_fit};
ghost use Rattle.dd_acc.specs.Hidden.{hidden_by, hidden_after};

use dd_bits::Area;
use dd_geom::{Move, Rect};
use dd_ops::{Op, Ops};
use std::alloc::AllocError;

/// Takes the points of a rectangle out of a set. An empty one is left as it is.
fn show<A: Area>(area: &mut A, rect: Rect) -> Result<(), AllocError>
    requires { IsTrue (is_inside rect (A.points area.old).width (A.points area.old).height) }
    ensures points { OnOk result (A.points area.new ≡ without_rect (A.points area.old) rect) }
    ensures size { SameSize (A.points area.old) (A.points area.new) }
{
    if area.is_empty() {
        return Ok(());
    }
    area.remove(rect)
}

/// Carries a set over by a move. An empty one is left as it is.
fn carry<A: Area>(area: &mut A, mv: Move) -> Result<(), AllocError>
    requires { IsTrue (is_move_inside mv (A.points area.old).width (A.points area.old).height) }
    ensures points { OnOk result (A.points area.new ≡ moved_over (A.points area.old) mv) }
    ensures size { SameSize (A.points area.old) (A.points area.new) }
{
    if area.is_empty() {
        return Ok(());
    }
    area.move_over(mv)
}

/// Brings a set of hidden points forward by one operation.
fn hide_by<A: Area>(area: &mut A, op: &Op) -> Result<(), AllocError>
    requires { IsTrue (fits (A.points area.old).width (A.points area.old).height op.now) }
    ensures hidden { OnOk result (A.points area.new ≡ hidden_by (A.points area.old) op.now) }
    ensures size { SameSize (A.points area.old) (A.points area.new) }
{
    match op {
        Op::Fill { rect, .. } => show(area, *rect),
        Op::Blit { rect, .. } => show(area, *rect),
        Op::Cover { rect, .. } => area.add(*rect),
        Op::Scroll { mv } => carry(area, *mv),
    }
}

/// Brings a set of hidden points forward by operations, in order.
fn hide_all<A: Area>(area: &mut A, ops: &[Op]) -> Result<(), AllocError>
    requires { IsTrue (all_fit (A.points area.old).width (A.points area.old).height ops.now) }
    ensures hidden { OnOk result (A.points area.new ≡ hidden_after (A.points area.old) ops.now) }
    ensures size { SameSize (A.points area.old) (A.points area.new) }
{
    for op in ops {
        hide_by(area, op)?;
    }
    Ok(())
}

/// Brings a set of hidden points forward by the operations of a present. What is filled or blitted
/// over shows again, what is covered is hidden, and a scroll carries hidden points along. An empty
/// set takes memory for a cover alone.
///
/// After an error for want of memory some of the operations may be done: the set is to be given up.
pub fn hide<A: Area>(area: &mut A, ops: &Ops) -> Result<(), AllocError>
    requires fit { IsTrue (all_fit (A.points area.old).width (A.points area.old).height ops.now) }
    ensures hidden { OnOk result (A.points area.new ≡ hidden_after (A.points area.old) ops.now) }
    ensures size { SameSize (A.points area.old) (A.points area.new) }
{
    hide_all(area, ops.as_slice())
}
