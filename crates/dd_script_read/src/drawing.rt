//! Points, rectangles, colours, operations and drawings.

ghost use Rattle.std.specs.Prelude.{◌≡◌, ◌≤◌, length, map, IfOk};
ghost use Rattle.std.specs.Result.{result_ok};
ghost use Rattle.hex.specs.Hex.{decode_of};
ghost use Rattle.dd_script_read.specs.Tree.{tree_data};
ghost use Rattle.dd_ops.specs.declared.lists.TheConstants.{MAX_OPS};
ghost use Rattle.dd_script_read.specs.Reading.{Gives};
ghost use Rattle.dd_script_read.specs.Script.{each, point_of, rect_of, bytes_of};
ghost use Rattle.dd_script_read.specs.Script.{colour_of, colours_in, colours_from, colours_of};
ghost use Rattle.dd_script_read.specs.Script.{fill_of, blit_of, cover_of, scroll_of, operation_of, operations_of};
ghost use Rattle.dd_script_read.specs.Script.{present_of, change_of, switch_of, has_true, session_of, single_of, draw_of};

use crate::fault::ScriptFault;
use crate::pointer::{pointer_of, shape_of};
use crate::tree::{
    Tree, at, get, has_items, has_keys, i32_of, list_of, member, text_of, truth_of, u32_of,
};
use dd_geom::{Move, Point, Rect};
use dd_log::Draw;
use dd_ops::{Colours, MAX_OPS, Op, Ops};
use hex::{FromHex, FromHexError};
use std::alloc::{AllocError, Global};

/// `[left, top, right, bottom]`.
#[tactic(auto, unfolding(crate::specs::Script::rect_of))]
fn rect_of(tree: &Tree<'_>) -> Option<Rect>
    ensures { result ≡ rect_of (tree_data tree.now) }
{
    if !has_items(tree, 4) {
        return None;
    }
    let left = i32_of(at(tree, 0)?)?;
    let top = i32_of(at(tree, 1)?)?;
    let right = i32_of(at(tree, 2)?)?;
    let bottom = i32_of(at(tree, 3)?)?;
    Some(Rect {
        left,
        top,
        right,
        bottom,
    })
}

/// `[x, y]`.
#[tactic(auto, unfolding(crate::specs::Script::point_of))]
pub(crate) fn point_of(tree: &Tree<'_>) -> Option<Point>
    ensures { result ≡ point_of (tree_data tree.now) }
{
    if !has_items(tree, 2) {
        return None;
    }
    let x = i32_of(at(tree, 0)?)?;
    let y = i32_of(at(tree, 1)?)?;
    Some(Point { x, y })
}

/// Six hexadecimal digits: red, green, blue.
#[tactic(auto, unfolding(crate::specs::Script::colour_of))]
fn colour_of(tree: &Tree<'_>) -> Option<u32>
    ensures { result ≡ colour_of (tree_data tree.now) }
{
    let [red, green, blue] = <[u8; 3] as FromHex>::from_hex(text_of(tree)?).ok()?;
    Some(u32::from_be_bytes([0, red, green, blue]))
}

/// The bytes of a text of hexadecimal digits.
fn decoded(alloc: Global, text: &str) -> Result<Vec<u8>, ScriptFault>
    ensures { Gives (λ v. v.items) result (result_ok (decode_of text.now)) }
{
    match hex::decode(alloc, text) {
        Ok(bytes) => Ok(bytes),
        Err(FromHexError::OutOfMemory) => Err(ScriptFault::OutOfMemory),
        Err(_) => Err(ScriptFault::NotScript),
    }
}

/// Hexadecimal digits, two for each byte.
#[tactic(auto, unfolding(crate::specs::Script::bytes_of))]
pub(crate) fn bytes_of(alloc: Global, tree: &Tree<'_>) -> Result<Vec<u8>, ScriptFault>
    ensures { Gives (λ v. v.items) result (bytes_of (tree_data tree.now)) }
{
    let text = text_of(tree).ok_or(ScriptFault::NotScript)?;
    decoded(alloc, text)
}

/// The colours of bytes that are red, green and blue in turn. A rest of one or two is left out.
fn each_colour(alloc: Global, bytes: &[u8]) -> Result<Vec<u32>, AllocError>
    ensures { IfOk result (λ v. v.items ≡ colours_in bytes.now) }
{
    let count = bytes.len() / 3;
    let mut colours = Vec::with_capacity(alloc, count)?;
    for i in 0..count {
        let (red, green, blue) = (bytes[3 * i], bytes[3 * i + 1], bytes[3 * i + 2]);
        colours.push(u32::from_be_bytes([0, red, green, blue]))?;
    }
    Ok(colours)
}

/// Bytes as colours, with none left over.
#[tactic(auto, unfolding(crate::specs::Script::colours_from))]
fn colours_from(alloc: Global, bytes: &[u8]) -> Result<Colours, ScriptFault>
    ensures { Gives (λ colours. colours) result (colours_from bytes.now) }
{
    if bytes.len() % 3 != 0 {
        return Err(ScriptFault::NotScript);
    }
    Ok(Colours::from_vec(each_colour(alloc, bytes)?))
}

/// Hexadecimal digits, six for each colour.
#[tactic(auto, unfolding(crate::specs::Script::colours_of))]
fn colours_of(alloc: Global, tree: &Tree<'_>) -> Result<Colours, ScriptFault>
    ensures { Gives (λ colours. colours) result (colours_of (tree_data tree.now)) }
{
    let bytes = bytes_of(alloc, tree)?;
    colours_from(alloc, bytes.as_slice())
}

/// `{"fill":R,"colour":colour}`.
#[tactic(auto, unfolding(crate::specs::Script::fill_of))]
fn fill_of(tree: &Tree<'_>) -> Option<Op>
    ensures { result ≡ fill_of (tree_data tree.now) }
{
    let rect = rect_of(get(tree, "fill")?)?;
    let colour = colour_of(get(tree, "colour")?)?;
    Some(Op::Fill { rect, colour })
}

/// `{"blit":R,"colours":colours}`.
#[tactic(auto, unfolding(crate::specs::Script::blit_of))]
fn blit_of(alloc: Global, tree: &Tree<'_>) -> Result<Op, ScriptFault>
    ensures { Gives (λ op. op) result (blit_of (tree_data tree.now)) }
{
    let rect = rect_of(member(tree, "blit")?).ok_or(ScriptFault::NotScript)?;
    let colours = colours_of(alloc, member(tree, "colours")?)?;
    Ok(Op::Blit { rect, colours })
}

/// `{"cover":R,"colours":colours}`.
#[tactic(auto, unfolding(crate::specs::Script::cover_of))]
fn cover_of(alloc: Global, tree: &Tree<'_>) -> Result<Op, ScriptFault>
    ensures { Gives (λ op. op) result (cover_of (tree_data tree.now)) }
{
    let rect = rect_of(member(tree, "cover")?).ok_or(ScriptFault::NotScript)?;
    let colours = colours_of(alloc, member(tree, "colours")?)?;
    Ok(Op::Cover { rect, colours })
}

/// `{"scroll":R,"from":[x,y]}`: the destination, and the source's point.
#[tactic(auto, unfolding(crate::specs::Script::scroll_of))]
fn scroll_of(tree: &Tree<'_>) -> Option<Op>
    ensures { result ≡ scroll_of (tree_data tree.now) }
{
    let dest = rect_of(get(tree, "scroll")?)?;
    let source = point_of(get(tree, "from")?)?;
    Some(Op::Scroll {
        mv: Move { source, dest },
    })
}

/// An operation has two keys, of which one tells its kind.
#[tactic(auto, unfolding(crate::specs::Script::operation_of))]
fn operation_of(alloc: Global, tree: &Tree<'_>) -> Result<Op, ScriptFault>
    ensures { Gives (λ op. op) result (operation_of (tree_data tree.now)) }
{
    if !has_keys(tree, 2) {
        return Err(ScriptFault::NotScript);
    }
    if get(tree, "fill").is_some() {
        fill_of(tree).ok_or(ScriptFault::NotScript)
    } else if get(tree, "blit").is_some() {
        blit_of(alloc, tree)
    } else if get(tree, "cover").is_some() {
        cover_of(alloc, tree)
    } else {
        scroll_of(tree).ok_or(ScriptFault::NotScript)
    }
}

/// The operations of the trees, in their order.
#[tactic(auto, using(crate::proofs::Each::one_by_one))]
fn each_operation(alloc: Global, trees: &[Tree<'_>]) -> Result<Ops, ScriptFault>
    requires { length trees.now ≤ MAX_OPS }
    ensures { Gives (λ ops. ops) result (each operation_of (map tree_data trees.now)) }
{
    let mut ops = Ops::new(alloc);
    for tree in trees {
        let op = operation_of(alloc, tree)?;
        ops.push(op)?;
    }
    Ok(ops)
}

/// A list of 0 to 64 operations.
#[tactic(auto, unfolding(crate::specs::Script::operations_of))]
fn operations_of(alloc: Global, tree: &Tree<'_>) -> Result<Ops, ScriptFault>
    ensures { Gives (λ ops. ops) result (operations_of (tree_data tree.now)) }
{
    let trees = list_of(tree).ok_or(ScriptFault::NotScript)?;
    if trees.len() > MAX_OPS {
        return Err(ScriptFault::NotScript);
    }
    each_operation(alloc, trees)
}

/// `{"present":[operations]}`.
#[tactic(auto, unfolding(crate::specs::Script::present_of))]
fn present_of(alloc: Global, tree: &Tree<'_>) -> Result<Draw, ScriptFault>
    ensures { Gives (λ d. d) result (present_of (tree_data tree.now)) }
{
    let ops = operations_of(alloc, member(tree, "present")?)?;
    Ok(Draw::Present(ops))
}

/// `{"mode":index}`.
#[tactic(auto, unfolding(crate::specs::Script::change_of))]
fn change_of(tree: &Tree<'_>) -> Option<Draw>
    ensures { result ≡ change_of (tree_data tree.now) }
{
    let index = u32_of(get(tree, "mode")?)?;
    Some(Draw::Mode { index })
}

/// `{"switch":secure}`.
#[tactic(auto, unfolding(crate::specs::Script::switch_of))]
fn switch_of(tree: &Tree<'_>) -> Option<Draw>
    ensures { result ≡ switch_of (tree_data tree.now) }
{
    let secure = truth_of(get(tree, "switch")?)?;
    Some(Draw::Switch { secure })
}

/// Whether the key's value is true.
#[tactic(auto, unfolding(crate::specs::Script::has_true))]
fn has_true(tree: &Tree<'_>, key: &str) -> bool
    ensures { result ≡ has_true key.now (tree_data tree.now) }
{
    match get(tree, key) {
        Some(value) => truth_of(value).unwrap_or(false),
        None => false,
    }
}

/// `{"disconnect":true}` or `{"reconnect":true}`.
#[tactic(auto, unfolding(crate::specs::Script::session_of))]
fn session_of(tree: &Tree<'_>) -> Option<Draw>
    ensures { result ≡ session_of (tree_data tree.now) }
{
    if has_true(tree, "disconnect") {
        Some(Draw::Disconnect)
    } else if has_true(tree, "reconnect") {
        Some(Draw::Reconnect)
    } else {
        None
    }
}

/// A drawing of one key, which tells its kind.
#[tactic(auto, unfolding(crate::specs::Script::single_of))]
fn single_of(alloc: Global, tree: &Tree<'_>) -> Result<Draw, ScriptFault>
    ensures { Gives (λ d. d) result (single_of (tree_data tree.now)) }
{
    if !has_keys(tree, 1) {
        return Err(ScriptFault::NotScript);
    }
    if get(tree, "present").is_some() {
        present_of(alloc, tree)
    } else if get(tree, "mode").is_some() {
        change_of(tree).ok_or(ScriptFault::NotScript)
    } else if get(tree, "switch").is_some() {
        switch_of(tree).ok_or(ScriptFault::NotScript)
    } else {
        session_of(tree).ok_or(ScriptFault::NotScript)
    }
}

/// A pointer, a shape, or a drawing of one key.
#[tactic(auto, unfolding(crate::specs::Script::draw_of))]
pub(crate) fn draw_of(alloc: Global, tree: &Tree<'_>) -> Result<Draw, ScriptFault>
    ensures { Gives (λ d. d) result (draw_of (tree_data tree.now)) }
{
    if get(tree, "pointer").is_some() {
        pointer_of(tree).ok_or(ScriptFault::NotScript)
    } else if get(tree, "shape").is_some() {
        shape_of(alloc, tree)
    } else {
        single_of(alloc, tree)
    }
}
