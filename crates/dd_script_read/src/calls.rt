//! Calls of clients, and the list of steps.

ghost use Rattle.std.specs.Prelude.{◌≡◌, map};
ghost use Rattle.dd_script_read.specs.Tree.{tree_data};
ghost use Rattle.dd_script_read.specs.Reading.{Gives};
ghost use Rattle.dd_script_read.specs.Script.{each, call_named, filling_named, buffer_of, plain_call_of, filling_call_of};
ghost use Rattle.dd_script_read.specs.Script.{client_call_of, call_of, step_of, steps_of};

use crate::drawing::draw_of;
use crate::fault::ScriptFault;
use crate::tree::{Tree, get, has_keys, list_of, text_of, u32_of};
use dd_calls::{ClientCall, Step, Steps};
use std::alloc::Global;

/// The most bytes of a buffer that a call is given.
pub const MAX_BUFFER: u32 = 524_288;

/// A call by its name. In one list of steps an acquire has no timeout of its own.
#[tactic(auto, unfolding(crate::specs::Script::call_named))]
fn call_named(name: &str) -> Option<ClientCall>
    ensures { result ≡ call_named name.now }
{
    match name {
        "duplicate" => Some(ClientCall::Duplicate),
        "close" => Some(ClientCall::Close),
        "acquire" => Some(ClientCall::Acquire { timeout: 0 }),
        "release" => Some(ClientCall::Release),
        "surface" => Some(ClientCall::Surface),
        "desc" => Some(ClientCall::Desc),
        _ => None,
    }
}

/// A call that is given a buffer of so many bytes, by its name.
#[tactic(auto, unfolding(crate::specs::Script::filling_named))]
fn filling_named(name: &str, buffer: u32) -> Option<ClientCall>
    ensures { result ≡ filling_named name.now buffer }
{
    match name {
        "moves" => Some(ClientCall::Moves { buffer }),
        "dirty" => Some(ClientCall::Dirty { buffer }),
        "shape" => Some(ClientCall::Shape { buffer }),
        _ => None,
    }
}

/// A buffer's bytes: a whole number from 0 to 524288.
#[tactic(auto, unfolding(crate::specs::Script::buffer_of))]
fn buffer_of(tree: &Tree<'_>) -> Option<u32>
    ensures { result ≡ buffer_of (tree_data tree.now) }
{
    let bytes = u32_of(tree)?;
    if bytes <= MAX_BUFFER {
        Some(bytes)
    } else {
        None
    }
}

/// `{"client":k,"call":name}`.
#[tactic(auto, unfolding(crate::specs::Script::plain_call_of))]
fn plain_call_of(tree: &Tree<'_>) -> Option<ClientCall>
    ensures { result ≡ plain_call_of (tree_data tree.now) }
{
    if !has_keys(tree, 2) {
        return None;
    }
    call_named(text_of(get(tree, "call")?)?)
}

/// `{"client":k,"call":name,"buffer":bytes}`.
#[tactic(auto, unfolding(crate::specs::Script::filling_call_of))]
fn filling_call_of(tree: &Tree<'_>) -> Option<ClientCall>
    ensures { result ≡ filling_call_of (tree_data tree.now) }
{
    if !has_keys(tree, 3) {
        return None;
    }
    let name = text_of(get(tree, "call")?)?;
    let buffer = buffer_of(get(tree, "buffer")?)?;
    filling_named(name, buffer)
}

/// A call with a buffer where there is one.
#[tactic(auto, unfolding(crate::specs::Script::client_call_of))]
fn client_call_of(tree: &Tree<'_>) -> Option<ClientCall>
    ensures { result ≡ client_call_of (tree_data tree.now) }
{
    if get(tree, "buffer").is_some() {
        filling_call_of(tree)
    } else {
        plain_call_of(tree)
    }
}

/// The client's number, and its call.
#[tactic(auto, unfolding(crate::specs::Script::call_of))]
fn call_of(tree: &Tree<'_>) -> Option<Step>
    ensures { result ≡ call_of (tree_data tree.now) }
{
    let client = u32_of(get(tree, "client")?)?;
    let call = client_call_of(tree)?;
    Some(Step::Call { client, call })
}

/// A call where there is a client, else a drawing.
#[tactic(auto, unfolding(crate::specs::Script::step_of))]
pub(crate) fn step_of(alloc: Global, tree: &Tree<'_>) -> Result<Step, ScriptFault>
    ensures { Gives (λ s. s) result (step_of (tree_data tree.now)) }
{
    if get(tree, "client").is_some() {
        call_of(tree).ok_or(ScriptFault::NotScript)
    } else {
        Ok(Step::Draw(draw_of(alloc, tree)?))
    }
}

/// The steps of the trees, in their order.
#[tactic(auto, using(crate::proofs::Each::one_by_one))]
fn each_step(alloc: Global, trees: &[Tree<'_>]) -> Result<Vec<Step>, ScriptFault>
    ensures { Gives (λ v. v.items) result (each step_of (map tree_data trees.now)) }
{
    let mut steps = Vec::new(alloc);
    for tree in trees {
        let step = step_of(alloc, tree)?;
        steps.push(step)?;
    }
    Ok(steps)
}

/// A list of steps.
#[tactic(auto, unfolding(crate::specs::Script::steps_of))]
pub(crate) fn steps_of(alloc: Global, tree: &Tree<'_>) -> Result<Steps, ScriptFault>
    ensures { Gives (λ s. s) result (steps_of (tree_data tree.now)) }
{
    let trees = list_of(tree).ok_or(ScriptFault::NotScript)?;
    Ok(Steps::from_vec(each_step(alloc, trees)?))
}
