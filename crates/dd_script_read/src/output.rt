//! What an output is begun with: its modes and its applications.

ghost use Rattle.std.specs.Prelude.{◌≡◌, map};
ghost use Rattle.dd_script_read.specs.Tree.{tree_data};
ghost use Rattle.dd_script_read.specs.Reading.{Gives};
ghost use Rattle.dd_script_read.specs.Script.{each, u32_of, mode_of, modes_of, apps_of};

use crate::fault::ScriptFault;
use crate::tree::{Tree, at, has_items, list_of, u32_of};
use dd_log::Apps;
use dd_modes::{Mode, Modes, Rotation};
use std::alloc::Global;

/// `[width, height, rotation]`.
#[tactic(auto, unfolding(crate::specs::Script::mode_of))]
fn mode_of(tree: &Tree<'_>) -> Option<Mode>
    ensures { result ≡ mode_of (tree_data tree.now) }
{
    if !has_items(tree, 3) {
        return None;
    }
    let width = u32_of(at(tree, 0)?)?;
    let height = u32_of(at(tree, 1)?)?;
    let rotation = Rotation::numbered(u32_of(at(tree, 2)?)?)?;
    Some(Mode {
        width,
        height,
        rotation,
    })
}

/// The modes of the trees, in their order.
#[tactic(auto, using(crate::proofs::Each::one_by_one))]
fn each_mode(alloc: Global, trees: &[Tree<'_>]) -> Result<Vec<Mode>, ScriptFault>
    ensures { Gives (λ v. v.items) result (each mode_of (map tree_data trees.now)) }
{
    let mut modes = Vec::new(alloc);
    for tree in trees {
        let mode = mode_of(tree).ok_or(ScriptFault::NotScript)?;
        modes.push(mode)?;
    }
    Ok(modes)
}

/// Modes that an output may have.
#[tactic(auto, unfolding(crate::specs::Script::modes_of))]
pub(crate) fn modes_of(alloc: Global, tree: &Tree<'_>) -> Result<Modes, ScriptFault>
    ensures { Gives (λ modes. modes) result (modes_of (tree_data tree.now)) }
{
    let trees = list_of(tree).ok_or(ScriptFault::NotScript)?;
    let modes = each_mode(alloc, trees)?;
    Modes::from_vec(modes).ok_or(ScriptFault::NotScript)
}

/// The numbers of the trees, in their order.
#[tactic(auto, using(crate::proofs::Each::one_by_one))]
fn each_number(alloc: Global, trees: &[Tree<'_>]) -> Result<Vec<u32>, ScriptFault>
    ensures { Gives (λ v. v.items) result (each u32_of (map tree_data trees.now)) }
{
    let mut numbers = Vec::new(alloc);
    for tree in trees {
        let number = u32_of(tree).ok_or(ScriptFault::NotScript)?;
        numbers.push(number)?;
    }
    Ok(numbers)
}

/// A list of applications.
#[tactic(auto, unfolding(crate::specs::Script::apps_of))]
pub(crate) fn apps_of(alloc: Global, tree: &Tree<'_>) -> Result<Apps, ScriptFault>
    ensures { Gives (λ apps. apps) result (apps_of (tree_data tree.now)) }
{
    let trees = list_of(tree).ok_or(ScriptFault::NotScript)?;
    Ok(Apps::from_vec(each_number(alloc, trees)?))
}
