//! Scripts from bytes.

ghost use Rattle.std.specs.Prelude.{◌≡◌, ◌<◌, ℕ, List, length, IfOk};
ghost use Rattle.serde_json.specs.Data.{Data};
ghost use Rattle.dd_script_read.specs.Reading.{IsJson, Reads};
ghost use Rattle.dd_script_read.specs.Script.{IsRunnable};

use crate::fault::ScriptFault;
use crate::parsing::tree_of;
use crate::pieces::script_by_pieces;
use crate::whole::script_of;
use dd_calls::Script;
use json::Scratch;
use std::alloc::Global;

/// The script that a text is, read as one tree.
fn script_at_once(alloc: Global, text: &str, scratch: &mut Scratch) -> Result<Script, ScriptFault>
    ensures { Reads result text.now }
{
    let tree = tree_of(alloc, text, scratch)?;
    script_of(alloc, &tree)
}

/// The script that a text is: a step at a time where the steps come last, else as one tree.
fn script_of_text(alloc: Global, text: &str) -> Result<Script, ScriptFault>
    ensures { Reads result text.now }
{
    let mut scratch = Scratch::new(alloc);
    match script_by_pieces(alloc, text, &mut scratch) {
        Ok(script) => Ok(script),
        Err(ScriptFault::OutOfMemory) => Err(ScriptFault::OutOfMemory),
        // Written in another form, or no script.
        Err(_) => script_at_once(alloc, text, &mut scratch),
    }
}

/// The script that the bytes are, as a JSON text.
///
/// NotJson comes exactly where the bytes are no JSON text, NotScript exactly where its tree is no
/// script. A script has fewer steps than its text has bytes.
#[tactic(auto, using(crate::proofs::Runnable::script_runs, crate::proofs::StepCount::few_steps))]
pub fn read_steps(alloc: Global, bytes: &[u8]) -> Result<Script, ScriptFault>
    ensures reads { Reads result bytes.now }
    ensures whole { IfOk result (λ s. IsRunnable s) }
    ensures count { IfOk result (λ s. length s.steps < length bytes.now) }
{
    let Ok(text) = std::str::from_utf8(bytes) else {
        return Err(ScriptFault::NotJson);
    };
    script_of_text(alloc, text)
}

/// Bytes are the text of at most one tree.
pub fn one_tree()
    ensures { (bytes : List ℕ) (d e : Data) → IsJson bytes d → IsJson bytes e → d ≡ e }
{}
