//! The script that a tree is.

ghost use Rattle.dd_script_read.specs.Tree.{tree_data};
ghost use Rattle.dd_script_read.specs.Reading.{Gives};
ghost use Rattle.dd_script_read.specs.Script.{parts_of, script_of};

use crate::calls::steps_of;
use crate::fault::ScriptFault;
use crate::limits::keeps_limits;
use crate::output::{apps_of, modes_of};
use crate::tree::{Tree, has_keys, member, u32_of};
use dd_calls::Script;
use dd_log::Spec;
use std::alloc::Global;

/// `{"modes":modes,"capacity":capacity,"privileged":[applications],"clients":[applications],
/// "steps":[steps]}`.
#[tactic(auto, unfolding(crate::specs::Script::parts_of))]
pub(crate) fn parts_of(alloc: Global, tree: &Tree<'_>) -> Result<Script, ScriptFault>
    ensures { Gives (λ s. s) result (parts_of (tree_data tree.now)) }
{
    if !has_keys(tree, 5) {
        return Err(ScriptFault::NotScript);
    }
    let modes = modes_of(alloc, member(tree, "modes")?)?;
    let capacity = u32_of(member(tree, "capacity")?).ok_or(ScriptFault::NotScript)?;
    let privileged = apps_of(alloc, member(tree, "privileged")?)?;
    let clients = apps_of(alloc, member(tree, "clients")?)?;
    let steps = steps_of(alloc, member(tree, "steps")?)?;
    let spec = Spec {
        modes,
        capacity,
        privileged,
    };
    Ok(Script {
        spec,
        clients,
        steps,
    })
}

/// The script that a tree is.
#[tactic(auto, unfolding(crate::specs::Script::script_of))]
pub(crate) fn script_of(alloc: Global, tree: &Tree<'_>) -> Result<Script, ScriptFault>
    ensures { Gives (λ s. s) result (script_of (tree_data tree.now)) }
{
    let script = parts_of(alloc, tree)?;
    if keeps_limits(&script) {
        Ok(script)
    } else {
        Err(ScriptFault::NotScript)
    }
}
