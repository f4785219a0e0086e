//! Drawings as JSON: operations, pointers, shapes and the rest.

ghost use Rattle.std.specs.Prelude.{◌≡◌, IfOk, OnOk, ◌++◌};
ghost use Rattle.std.specs.List.{flat_map};
ghost use Rattle.serde_json.specs.View.{view};
ghost use Rattle.dd_script_write.specs.Answers.{array_of, colour_bytes};
ghost use Rattle.dd_script_write.specs.Spelling.{colour_tree, colours_tree, op_tree, shape_step_tree, draw_tree};

use crate::frames::{point_tree, rect_tree};
use dd_log::Draw;
use dd_ops::Op;
use dd_pointer::Shape;
use serde_json::{Value, json};
use std::alloc::{AllocError, Global};

/// A colour's red, green and blue.
fn colour_bytes(colour: u32) -> [u8; 3]
    ensures { result ≡ colour_bytes colour }
{
    let [_, red, green, blue] = colour.to_be_bytes();
    [red, green, blue]
}

/// A colour, as six digits.
fn colour_tree(alloc: Global, colour: u32) -> Result<Value, AllocError>
    ensures { IfOk result (λ v. view v ≡ colour_tree colour) }
{
    Ok(Value::String(hex::encode(alloc, &colour_bytes(colour))?))
}

/// The bytes of colours, three for each.
fn bytes_of_colours(alloc: Global, colours: &[u32]) -> Result<Vec<u8>, AllocError>
    ensures { IfOk result (λ v. v.items ≡ flat_map colour_bytes colours.now) }
{
    let mut bytes = Vec::new(alloc);
    for colour in colours {
        bytes.extend_from_slice(&colour_bytes(*colour))?;
    }
    Ok(bytes)
}

/// Colours, as six digits for each.
#[tactic(auto, unfolding(crate::specs::Answers::row_digits))]
fn colours_tree(alloc: Global, colours: &[u32]) -> Result<Value, AllocError>
    ensures { IfOk result (λ v. view v ≡ colours_tree colours.now) }
{
    let bytes = bytes_of_colours(alloc, colours)?;
    Ok(Value::String(hex::encode(alloc, &bytes)?))
}

/// An operation.
#[tactic(auto, unfolding(crate::specs::Spelling::op_tree))]
fn op_tree(alloc: Global, op: &Op) -> Result<Value, AllocError>
    ensures { IfOk result (λ v. view v ≡ op_tree op.now) }
{
    match op {
        Op::Fill { rect, colour } => {
            let colour = colour_tree(alloc, *colour)?;
            let fill = rect_tree(alloc, *rect)?;
            json!(in alloc; {"colour": colour, "fill": fill})
        }
        Op::Blit { rect, colours } => {
            let blit = rect_tree(alloc, *rect)?;
            let colours = colours_tree(alloc, colours.as_slice())?;
            json!(in alloc; {"blit": blit, "colours": colours})
        }
        Op::Cover { rect, colours } => {
            let colours = colours_tree(alloc, colours.as_slice())?;
            let cover = rect_tree(alloc, *rect)?;
            json!(in alloc; {"colours": colours, "cover": cover})
        }
        Op::Scroll { mv } => {
            let from = point_tree(alloc, mv.source)?;
            let scroll = rect_tree(alloc, mv.dest)?;
            json!(in alloc; {"from": from, "scroll": scroll})
        }
    }
}

fn op_array(alloc: Global, ops: &[Op]) -> Result<Value, AllocError>
    ensures { IfOk result (λ v. view v ≡ array_of op_tree ops.now) }
{
    let mut list = Vec::with_capacity(alloc, ops.len())?;
    for op in ops {
        list.push(op_tree(alloc, op)?)?;
    }
    Ok(Value::Array(list))
}

/// A shape, with its bytes as digits.
#[tactic(auto, unfolding(crate::specs::Spelling::shape_step_tree))]
fn shape_tree(alloc: Global, shape: &Shape) -> Result<Value, AllocError>
    ensures { IfOk result (λ v. view v ≡ shape_step_tree shape.now) }
{
    let bytes = hex::encode(alloc, shape.bytes())?;
    let info = shape.info();
    let hot = point_tree(alloc, info.hot)?;
    json!(in alloc; {
        "bytes": bytes,
        "height": info.height,
        "hot": hot,
        "shape": info.kind,
        "width": info.width
    })
}

/// A drawing.
#[tactic(auto, unfolding(crate::specs::Spelling::draw_tree))]
pub(crate) fn draw_tree(alloc: Global, drawing: &Draw) -> Result<Value, AllocError>
    ensures { IfOk result (λ v. view v ≡ draw_tree drawing.now) }
{
    match drawing {
        Draw::Present(ops) => {
            let present = op_array(alloc, ops.as_slice())?;
            json!(in alloc; {"present": present})
        }
        Draw::Pointer { position, visible } => {
            let pointer = point_tree(alloc, *position)?;
            json!(in alloc; {"pointer": pointer, "visible": *visible})
        }
        Draw::Shape(shape) => shape_tree(alloc, shape),
        Draw::Mode { index } => json!(in alloc; {"mode": *index}),
        Draw::Switch { secure } => json!(in alloc; {"switch": *secure}),
        Draw::Disconnect => json!(in alloc; {"disconnect": true}),
        Draw::Reconnect => json!(in alloc; {"reconnect": true}),
    }
}
