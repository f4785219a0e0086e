//! A script whose steps are the last member of its text, read a step at a time: no more than the tree of one step is
//! kept beside the steps.
//!
//! What isn't written so is answered NotScript, which says nothing of the text: it may be a script in another form.

ghost use Rattle.std.specs.Prelude.{◌≡◌, ◌<◌, [], ◌∷◌, length, true, Some, IfOk, IsTrue, OnOk};
ghost use Rattle.json.specs.Token.{begin_object, end_object, begin_array};
ghost use Rattle.json.specs.Json.{value};
ghost use Rattle.json.specs.Value.{value_view};
ghost use Rattle.dd_script_read.specs.Pieces.{NextStep, HasSteps, HasHead, HasStepless, in_place};
ghost use Rattle.dd_script_read.specs.Script.{keeps_limits};
ghost use Rattle.dd_script_read.specs.Reading.{IsScript};

use crate::calls::step_of;
use crate::fault::ScriptFault;
use crate::limits::keeps_limits;
use crate::numbers::has_numbers;
use crate::parsing::MAX_DEPTH;
use crate::tree::{Member, Tree};
use crate::whole::parts_of;
use dd_calls::{Script, Step, Steps};
use json::{Error, Reader, Scratch, Token, Value};
use std::alloc::Global;

/// The most that arrays and objects nest in a member of a script.
const MEMBER_DEPTH: usize = MAX_DEPTH - 1;

/// The most that they nest in a step.
const STEP_DEPTH: usize = MAX_DEPTH - 2;

/// The next value as a tree.
fn next_tree<'a>(
    alloc: Global,
    reader: &mut Reader<'a>,
    depth: usize,
) -> Result<Tree<'a>, ScriptFault>
    ensures ok { IfOk result (λ v. value depth reader.old ≡ Some (value_view v, reader.new)) }
    ensures shorter { OnOk result (length reader.new < length reader.old) }
{
    match Value::read(alloc, reader, depth) {
        Ok(tree) => Ok(tree),
        Err(Error::OutOfMemory) => Err(ScriptFault::OutOfMemory),
        Err(_) => Err(ScriptFault::NotScript),
    }
}

/// The step that the next value is.
fn next_step(alloc: Global, reader: &mut Reader<'_>) -> Result<Step, ScriptFault>
    ensures ok { IfOk result (λ s. NextStep reader.old s reader.new) }
    ensures shorter { OnOk result (length reader.new < length reader.old) }
{
    let tree = next_tree(alloc, reader, STEP_DEPTH)?;
    if has_numbers(&tree) {
        step_of(alloc, &tree)
    } else {
        Err(ScriptFault::NotScript)
    }
}

/// The steps up to the bracket that closes their list.
fn steps_by_one(alloc: Global, reader: &mut Reader<'_>) -> Result<Vec<Step>, ScriptFault>
    ensures { IfOk result (λ v. HasSteps (length reader.old) reader.old v.items reader.new) }
{
    let mut steps = Vec::new(alloc);
    while !reader.take_end_array() {
        let step = next_step(alloc, reader)?;
        steps.push(step)?;
    }
    Ok(steps)
}

/// The members before the steps.
fn head_of<'a>(alloc: Global, reader: &mut Reader<'a>) -> Result<Vec<Member<'a>>, ScriptFault>
    ensures { IfOk result (λ v. HasHead reader.old v.items reader.new) }
{
    let mut head = Vec::new(alloc);
    while let Ok(Some(key)) = reader.next_key() {
        if key == "steps" {
            return Ok(head);
        }
        let tree = next_tree(alloc, reader, MEMBER_DEPTH)?;
        head.push((key, tree))?;
    }
    Err(ScriptFault::NotScript)
}

/// Whether an object begins.
fn begins_object(reader: &mut Reader<'_>) -> bool
    ensures { IsTrue result → reader.old ≡ begin_object ∷ reader.new }
{
    matches!(reader.next(), Some(Token::BeginObject))
}

/// Whether a list begins.
fn begins_list(reader: &mut Reader<'_>) -> bool
    ensures { IsTrue result → reader.old ≡ begin_array ∷ reader.new }
{
    matches!(reader.next(), Some(Token::BeginArray))
}

/// Whether an object ends, and the text with it.
fn ends(reader: &mut Reader<'_>) -> bool
    ensures { IsTrue result → reader.old ≡ end_object ∷ [] }
{
    matches!(reader.next(), Some(Token::EndObject)) && reader.next().is_none()
}

/// The parts of a script beside its steps: these members, with a list of no steps behind them.
fn stepless(alloc: Global, mut head: Vec<Member<'_>>) -> Result<Script, ScriptFault>
    ensures { IfOk result (λ s. HasStepless head.entry.items s) }
{
    head.push(("steps", Value::Array(Vec::new(alloc))))?;
    let tree = Value::Object(head);
    if has_numbers(&tree) {
        parts_of(alloc, &tree)
    } else {
        Err(ScriptFault::NotScript)
    }
}

/// The script with these steps in place of its own.
fn script_with(rest: Script, steps: Vec<Step>) -> Result<Script, ScriptFault>
    ensures steps { IfOk result (λ s. s ≡ in_place steps.items rest) }
    ensures limits { IfOk result (λ s. keeps_limits s ≡ true) }
{
    let Script { spec, clients, .. } = rest;
    let script = Script {
        spec,
        clients,
        steps: Steps::from_vec(steps),
    };
    if keeps_limits(&script) {
        Ok(script)
    } else {
        Err(ScriptFault::NotScript)
    }
}

/// The script of a text, where its last member is the steps.
pub(crate) fn script_by_pieces(
    alloc: Global,
    text: &str,
    scratch: &mut Scratch,
) -> Result<Script, ScriptFault>
    ensures { IfOk result (λ s. IsScript text.now s) }
{
    let Ok(mut reader) = Reader::new(text, scratch) else {
        return Err(ScriptFault::OutOfMemory);
    };
    if !begins_object(&mut reader) {
        return Err(ScriptFault::NotScript);
    }
    let head = head_of(alloc, &mut reader)?;
    let rest = stepless(alloc, head)?;
    if !begins_list(&mut reader) {
        return Err(ScriptFault::NotScript);
    }
    let steps = steps_by_one(alloc, &mut reader)?;
    if !ends(&mut reader) {
        return Err(ScriptFault::NotScript);
    }
    script_with(rest, steps)
}
