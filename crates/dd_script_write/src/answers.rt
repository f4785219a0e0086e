//! The line of an answer, and its tree by its kind.

ghost use Rattle.std.specs.Prelude.{◌≡◌, IfOk};
ghost use Rattle.serde_json.specs.View.{view};
ghost use Rattle.dd_script_write.specs.Answers.{desc_tree, answer_tree, IsNoSurface};
ghost use Rattle.dd_script_write.specs.Texts.{line};

use crate::buffers::{buffer_tree, shape_buffer_tree};
use crate::frames::frame_tree;
use crate::refusals::{
    refused_call, refused_client, refused_closing, refused_drawing, refused_opening,
};
use crate::surfaces::surface_text;
use crate::text::Text;
use dd_calls::Answer;
use dd_modes::Mode;
use serde_json::{Value, json};
use std::alloc::{AllocError, Global};

/// The line of an answer: its tree as JSON with no space in it, and a line feed.
#[tactic(auto, unfolding(crate::specs::Texts::line, crate::specs::Answers::answer_tree))]
pub fn answer_text(alloc: Global, a: &Answer) -> Result<Text, AllocError>
    ensures { IfOk result (λ t. t ≡ line a.now) }
{
    match a {
        Answer::Surface(rows) => surface_text(alloc, rows),
        _ => tree_text(alloc, a),
    }
}

/// The line of an answer that isn't a surface, by way of its tree.
#[tactic(auto, unfolding(crate::specs::Texts::line), using(crate::proofs::NoFloat::answer_has_no_float))]
fn tree_text(alloc: Global, a: &Answer) -> Result<Text, AllocError>
    requires { IsNoSurface a.now }
    ensures { IfOk result (λ t. t ≡ line a.now) }
{
    let mut text = answer_tree(alloc, a)?.to_string(alloc)?;
    text.push_str("\n")?;
    Ok(Text::from_string(text))
}

#[tactic(auto, unfolding(crate::specs::Answers::answer_tree))]
fn answer_tree(alloc: Global, a: &Answer) -> Result<Value, AllocError>
    requires { IsNoSurface a.now }
    ensures { IfOk result (λ v. view v ≡ answer_tree a.now) }
{
    match a {
        Answer::Entered { entry } => json!(in alloc; {"entry": *entry}),
        Answer::NotDrawn(refusal) => refused_drawing(*refusal).tree(alloc),
        Answer::Opened { entry, slot } => json!(in alloc; {"entry": *entry, "slot": *slot}),
        Answer::NotOpened(refusal) => refused_opening(*refusal).tree(alloc),
        Answer::Closed { entry } => json!(in alloc; {"entry": *entry}),
        Answer::NotClosed(refusal) => refused_closing(*refusal).tree(alloc),
        Answer::Frame { info, moves, dirt } => frame_tree(alloc, info, moves, dirt),
        Answer::Released => json!(in alloc; {"released": true}),
        Answer::Surface(_) => unreachable!(),
        Answer::Desc(mode) => desc_tree(alloc, *mode),
        Answer::Buffer { size, bytes } => buffer_tree(alloc, bytes, *size),
        Answer::ShapeBuffer { size, bytes, shape } => {
            shape_buffer_tree(alloc, bytes, *shape, *size)
        }
        Answer::Refused { refusal, buffer } => {
            refused_call(*refusal, buffer.as_ref()).tree(alloc)
        }
        Answer::NoDuplicator => refused_client().tree(alloc),
    }
}

/// The mode of a duplicator's opening.
#[tactic(auto, unfolding(crate::specs::Answers::desc_tree))]
fn desc_tree(alloc: Global, mode: Mode) -> Result<Value, AllocError>
    ensures { IfOk result (λ v. view v ≡ desc_tree mode) }
{
    let rotation = mode.rotation.number();
    json!(in alloc; {"height": mode.height, "rotation": rotation, "width": mode.width})
}
