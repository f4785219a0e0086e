//! Where the pointer is, and its shape.

ghost use Rattle.std.specs.Prelude.{◌≡◌, IsErr};
ghost use Rattle.std.specs.Result.{result_ok};
ghost use Rattle.dd_script_read.specs.Tree.{tree_data};
ghost use Rattle.dd_pointer.specs.Shape.{reading};
ghost use Rattle.dd_script_read.specs.declared.fault.ScriptFault.TheVariants.{NotScript};
ghost use Rattle.dd_script_read.specs.Reading.{Gives};
ghost use Rattle.dd_script_read.specs.Script.{pointer_of, shape_of};

use crate::drawing::{bytes_of, point_of};
use crate::fault::ScriptFault;
use crate::tree::{Tree, get, has_keys, member, truth_of, u32_of};
use dd_geom::Point;
use dd_log::Draw;
use dd_pointer::{Shape, ShapeFault};
use std::alloc::Global;

/// `{"pointer":[x,y],"visible":visible}`.
#[tactic(auto, unfolding(crate::specs::Script::pointer_of))]
pub(crate) fn pointer_of(tree: &Tree<'_>) -> Option<Draw>
    ensures { result ≡ pointer_of (tree_data tree.now) }
{
    if !has_keys(tree, 2) {
        return None;
    }
    let position = point_of(get(tree, "pointer")?)?;
    let visible = truth_of(get(tree, "visible")?)?;
    Some(Draw::Pointer { position, visible })
}

/// Parts as a shape. Parts with a fault are none, and take no memory.
#[tactic(auto, using(crate::proofs::Faults::reading_wants_nothing))]
fn shape_from(
    alloc: Global,
    kind: u32,
    width: u32,
    height: u32,
    hot: Point,
    bytes: &[u8],
) -> Result<Shape, ScriptFault>
    ensures shape { Gives (λ shape. shape) result
        (result_ok (reading kind width height hot bytes.now)) }
    ensures fault { IsErr (reading kind width height hot bytes.now) → result ≡ Err NotScript }
{
    match Shape::read(alloc, kind, width, height, hot, bytes) {
        Ok(shape) => Ok(shape),
        Err(ShapeFault::OutOfMemory) => Err(ScriptFault::OutOfMemory),
        Err(_) => Err(ScriptFault::NotScript),
    }
}

/// `{"shape":kind,"width":width,"height":height,"hot":[x,y],"bytes":bytes}`, where these parts are a
/// shape.
#[tactic(auto, unfolding(crate::specs::Script::shape_of))]
pub(crate) fn shape_of(alloc: Global, tree: &Tree<'_>) -> Result<Draw, ScriptFault>
    ensures { Gives (λ d. d) result (shape_of (tree_data tree.now)) }
{
    if !has_keys(tree, 5) {
        return Err(ScriptFault::NotScript);
    }
    let kind = u32_of(member(tree, "shape")?).ok_or(ScriptFault::NotScript)?;
    let width = u32_of(member(tree, "width")?).ok_or(ScriptFault::NotScript)?;
    let height = u32_of(member(tree, "height")?).ok_or(ScriptFault::NotScript)?;
    let hot = point_of(member(tree, "hot")?).ok_or(ScriptFault::NotScript)?;
    let bytes = bytes_of(alloc, member(tree, "bytes")?)?;
    let shape = shape_from(alloc, kind, width, height, hot, bytes.as_slice())?;
    Ok(Draw::Shape(shape))
}
