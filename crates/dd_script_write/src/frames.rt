//! Frames as JSON: what is told of one, its moves and its dirty rectangles.

ghost use Rattle.std.specs.Prelude.{◌≡◌, IfOk};
ghost use Rattle.serde_json.specs.View.{view};
ghost use Rattle.dd_script_write.specs.Answers.{array_of, point_tree, rect_tree, move_tree, info_tree, frame_tree};

use dd_calls::FrameInfo;
use dd_geom::{Move, Moves, Point, Rect, Rects};
use serde_json::{Value, json};
use std::alloc::{AllocError, Global};

/// A frame: its dirty rectangles, what is told of it, and its moves.
#[tactic(auto, unfolding(crate::specs::Answers::frame_tree))]
pub(crate) fn frame_tree(
    alloc: Global,
    info: &FrameInfo,
    moves: &Moves,
    dirt: &Rects,
) -> Result<Value, AllocError>
    ensures { IfOk result (λ v. view v ≡ frame_tree info.now moves.now dirt.now) }
{
    let dirty = rect_array(alloc, dirt.as_slice())?;
    let frame = info_tree(alloc, info)?;
    let moves = move_array(alloc, moves.as_slice())?;
    json!(in alloc; {"dirty": dirty, "frame": frame, "moves": moves})
}

/// What is told of a frame.
#[tactic(auto, unfolding(crate::specs::Answers::info_tree))]
fn info_tree(alloc: Global, info: &FrameInfo) -> Result<Value, AllocError>
    ensures { IfOk result (λ v. view v ≡ info_tree info.now) }
{
    let position = point_tree(alloc, info.pointer.position)?;
    json!(in alloc; {
        "accumulated": info.accumulated,
        "coalesced": info.coalesced,
        "meta": info.meta_size,
        "mouse": info.last_mouse,
        "pointer": position,
        "present": info.last_present,
        "protected": info.protected,
        "shape": info.shape_size,
        "visible": info.pointer.visible
    })
}

/// A point, as its two coordinates.
#[tactic(auto, unfolding(crate::specs::Answers::point_tree))]
pub(crate) fn point_tree(alloc: Global, p: Point) -> Result<Value, AllocError>
    ensures { IfOk result (λ v. view v ≡ point_tree p) }
{
    json!(in alloc; [p.x, p.y])
}

/// A rectangle, as its left, top, right and bottom sides.
#[tactic(auto, unfolding(crate::specs::Answers::rect_tree))]
pub(crate) fn rect_tree(alloc: Global, r: Rect) -> Result<Value, AllocError>
    ensures { IfOk result (λ v. view v ≡ rect_tree r) }
{
    json!(in alloc; [r.left, r.top, r.right, r.bottom])
}

/// A move, as its source point and the sides of its destination.
#[tactic(auto, unfolding(crate::specs::Answers::move_tree))]
fn move_tree(alloc: Global, m: Move) -> Result<Value, AllocError>
    ensures { IfOk result (λ v. view v ≡ move_tree m) }
{
    let Move { source, dest } = m;
    json!(in alloc; [source.x, source.y, dest.left, dest.top, dest.right, dest.bottom])
}

fn rect_array(alloc: Global, rects: &[Rect]) -> Result<Value, AllocError>
    ensures { IfOk result (λ v. view v ≡ array_of rect_tree rects.now) }
{
    let mut list = Vec::with_capacity(alloc, rects.len())?;
    for r in rects {
        list.push(rect_tree(alloc, *r)?)?;
    }
    Ok(Value::Array(list))
}

fn move_array(alloc: Global, moves: &[Move]) -> Result<Value, AllocError>
    ensures { IfOk result (λ v. view v ≡ array_of move_tree moves.now) }
{
    let mut list = Vec::with_capacity(alloc, moves.len())?;
    for m in moves {
        list.push(move_tree(alloc, *m)?)?;
    }
    Ok(Value::Array(list))
}
