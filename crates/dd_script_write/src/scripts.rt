//! The text of a script, by way of its own tree.

ghost use Rattle.std.specs.Prelude.{◌≡◌, IsTrue, IfOk, option_map};
ghost use Rattle.serde_json.specs.View.{view};
ghost use Rattle.dd_script_write.specs.Answers.{count, array_of};
ghost use Rattle.dd_script_write.specs.Spelling.{name_of, buffer_given, step_tree, mode_tree, spelling};
ghost use Rattle.dd_script_write.specs.Texts.{script_line};

use crate::drawing::draw_tree;
use crate::text::Text;
use dd_calls::{ClientCall, Script, Step};
use dd_modes::Mode;
use serde_json::{Value, json};
use std::alloc::{AllocError, Global};

/// The name of a call.
fn name_of(call: ClientCall) -> &'static str
    ensures { result.now ≡ name_of call }
{
    match call {
        ClientCall::Duplicate => "duplicate",
        ClientCall::Close => "close",
        ClientCall::Acquire { .. } => "acquire",
        ClientCall::Release => "release",
        ClientCall::Moves { .. } => "moves",
        ClientCall::Dirty { .. } => "dirty",
        ClientCall::Shape { .. } => "shape",
        ClientCall::Surface => "surface",
        ClientCall::Desc => "desc",
    }
}

/// The bytes of the buffer that a call is given.
fn buffer_given(call: ClientCall) -> Option<u32>
    ensures { result ≡ buffer_given call }
{
    match call {
        ClientCall::Moves { buffer }
        | ClientCall::Dirty { buffer }
        | ClientCall::Shape { buffer } => Some(buffer),
        ClientCall::Duplicate
        | ClientCall::Close
        | ClientCall::Acquire { .. }
        | ClientCall::Release
        | ClientCall::Surface
        | ClientCall::Desc => None,
    }
}

/// A step: a drawing, or a client's call.
#[tactic(auto, unfolding(crate::specs::Spelling::step_tree))]
fn step_tree(alloc: Global, step: &Step) -> Result<Value, AllocError>
    ensures { IfOk result (λ v. view v ≡ step_tree step.now) }
{
    let (client, call) = match step {
        Step::Draw(drawing) => return draw_tree(alloc, drawing),
        Step::Call { client, call } => (*client, *call),
    };
    let name = name_of(call);
    match buffer_given(call) {
        Some(buffer) => json!(in alloc; {"buffer": buffer, "call": name, "client": client}),
        None => json!(in alloc; {"call": name, "client": client}),
    }
}

fn step_array(alloc: Global, steps: &[Step]) -> Result<Value, AllocError>
    ensures { IfOk result (λ v. view v ≡ array_of step_tree steps.now) }
{
    let mut list = Vec::with_capacity(alloc, steps.len())?;
    for step in steps {
        list.push(step_tree(alloc, step)?)?;
    }
    Ok(Value::Array(list))
}

/// A mode, as its width, its height and its rotation's number.
#[tactic(auto, unfolding(crate::specs::Spelling::mode_tree))]
fn mode_tree(alloc: Global, mode: Mode) -> Result<Value, AllocError>
    ensures { IfOk result (λ v. view v ≡ mode_tree mode) }
{
    let rotation = mode.rotation.number();
    json!(in alloc; [mode.width, mode.height, rotation])
}

fn mode_array(alloc: Global, modes: &[Mode]) -> Result<Value, AllocError>
    ensures { IfOk result (λ v. view v ≡ array_of mode_tree modes.now) }
{
    let mut list = Vec::with_capacity(alloc, modes.len())?;
    for mode in modes {
        list.push(mode_tree(alloc, *mode)?)?;
    }
    Ok(Value::Array(list))
}

fn count_array(alloc: Global, numbers: &[u32]) -> Result<Value, AllocError>
    ensures { IfOk result (λ v. view v ≡ array_of count numbers.now) }
{
    let mut list = Vec::with_capacity(alloc, numbers.len())?;
    for n in numbers {
        list.push(Value::from(*n))?;
    }
    Ok(Value::Array(list))
}

/// A script's own tree.
#[tactic(auto, unfolding(crate::specs::Spelling::spelling))]
fn spelling(alloc: Global, script: &Script) -> Result<Value, AllocError>
    ensures { IfOk result (λ v. view v ≡ spelling script.now) }
{
    let clients = count_array(alloc, script.clients.as_slice())?;
    let modes = mode_array(alloc, script.spec.modes.as_slice())?;
    let privileged = count_array(alloc, script.spec.privileged.as_slice())?;
    let steps = step_array(alloc, script.steps.as_slice())?;
    json!(in alloc; {
        "capacity": script.spec.capacity,
        "clients": clients,
        "modes": modes,
        "privileged": privileged,
        "steps": steps
    })
}

/// The text of a script, in one line: its tree as JSON with no space in it, an object's keys in the
/// order of their bytes, digits in lower case, and a line feed.
#[tactic(auto, unfolding(crate::specs::Texts::script_line), using(crate::proofs::WholeNumbers::script_has_no_float))]
pub fn script_text(alloc: Global, script: &Script) -> Result<Text, AllocError>
    ensures text { IfOk result (λ t. t ≡ script_line script.now) }
{
    let mut text = spelling(alloc, script)?.to_string(alloc)?;
    text.push_str("\n")?;
    Ok(Text::from_string(text))
}
