//! Buffers as JSON: all of their bytes in hexadecimal digits, and what was put there.

ghost use Rattle.std.specs.Prelude.{◌≡◌, IfOk};
ghost use Rattle.serde_json.specs.View.{view};
ghost use Rattle.dd_script_write.specs.Answers.{bytes_tree, buffer_tree, shape_tree, new_shape_tree, shape_buffer_tree};

use crate::frames::point_tree;
use dd_io::Bytes;
use dd_pointer::ShapeInfo;
use serde_json::{Value, json};
use std::alloc::{AllocError, Global};

/// Bytes, as their digits in lower case.
pub(crate) fn bytes_tree(alloc: Global, bytes: &Bytes) -> Result<Value, AllocError>
    ensures { IfOk result (λ v. view v ≡ bytes_tree bytes.now) }
{
    Ok(Value::String(hex::encode(alloc, bytes.as_slice())?))
}

/// A whole buffer, and how many of its bytes were put there.
#[tactic(auto, unfolding(crate::specs::Answers::buffer_tree))]
pub(crate) fn buffer_tree(alloc: Global, bytes: &Bytes, size: u32) -> Result<Value, AllocError>
    ensures { IfOk result (λ v. view v ≡ buffer_tree bytes.now size) }
{
    let digits = bytes_tree(alloc, bytes)?;
    json!(in alloc; {"buffer": digits, "size": size})
}

/// What is told of a shape.
#[tactic(auto, unfolding(crate::specs::Answers::shape_tree))]
fn shape_tree(alloc: Global, info: ShapeInfo) -> Result<Value, AllocError>
    ensures { IfOk result (λ v. view v ≡ shape_tree info) }
{
    let hot = point_tree(alloc, info.hot)?;
    json!(in alloc; {
        "height": info.height,
        "hot": hot,
        "kind": info.kind,
        "pitch": info.pitch,
        "width": info.width
    })
}

/// What is told of the new shape, or null where there is none.
fn new_shape_tree(alloc: Global, shape: Option<ShapeInfo>) -> Result<Value, AllocError>
    ensures { IfOk result (λ v. view v ≡ new_shape_tree shape) }
{
    match shape {
        None => Ok(Value::Null),
        Some(info) => shape_tree(alloc, info),
    }
}

/// A whole buffer, what is told of the new shape, and how many of its bytes were put there.
#[tactic(auto, unfolding(crate::specs::Answers::shape_buffer_tree))]
pub(crate) fn shape_buffer_tree(
    alloc: Global,
    bytes: &Bytes,
    shape: Option<ShapeInfo>,
    size: u32,
) -> Result<Value, AllocError>
    ensures { IfOk result (λ v. view v ≡ shape_buffer_tree bytes.now shape size) }
{
    let digits = bytes_tree(alloc, bytes)?;
    let info = new_shape_tree(alloc, shape)?;
    json!(in alloc; {"buffer": digits, "info": info, "size": size})
}
