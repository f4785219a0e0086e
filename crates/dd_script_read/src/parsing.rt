//! The tree of a text.

ghost use Rattle.dd_script_read.specs.Reading.{ReadsTree};
ghost use Rattle.dd_script_read.specs.Tree.{Values};

use crate::fault::ScriptFault;
use crate::numbers::has_numbers;
use crate::tree::Tree;
use json::{Error, Reader, Scratch, Value};
use std::alloc::Global;

/// The most that arrays and objects nest in a tree.
pub(crate) const MAX_DEPTH: usize = 127;

/// The one value of a text.
fn value_of<'a>(
    alloc: Global,
    text: &'a str,
    scratch: &'a mut Scratch,
) -> Result<Tree<'a>, ScriptFault>
    ensures { Values result text.now }
{
    let Ok(mut reader) = Reader::new(text, scratch) else {
        return Err(ScriptFault::OutOfMemory);
    };
    let tree = match Value::read(alloc, &mut reader, MAX_DEPTH) {
        Ok(tree) => tree,
        Err(Error::OutOfMemory) => return Err(ScriptFault::OutOfMemory),
        Err(_) => return Err(ScriptFault::NotJson),
    };
    if reader.next().is_some() {
        return Err(ScriptFault::NotJson);
    }
    Ok(tree)
}

/// The tree of a JSON text.
pub(crate) fn tree_of<'a>(
    alloc: Global,
    text: &'a str,
    scratch: &'a mut Scratch,
) -> Result<Tree<'a>, ScriptFault>
    ensures { ReadsTree result text.now }
{
    let tree = value_of(alloc, text, scratch)?;
    if has_numbers(&tree) {
        Ok(tree)
    } else {
        Err(ScriptFault::NotJson)
    }
}
