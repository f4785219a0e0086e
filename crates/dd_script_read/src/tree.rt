//! The tree of a JSON text, and the parts of it that forms are made of: lists, keys, texts and whole numbers.
//!
//! `json` reads it, the reader below `serde_json`: what is read borrows from the text, and no map is made of an
//! object. The clauses say it in `serde_json`'s words.

ghost use Rattle.std.specs.Prelude.{◌≡◌, ◌==◌, length, map, is_some, option_map};
ghost use Rattle.serde_json.specs.Data.{no_members};
ghost use Rattle.serde_json.specs.Find.{get, get_member, at, as_number, as_str, as_bool};
ghost use Rattle.serde_json.specs.View.{number_view};
ghost use Rattle.dd_script_read.specs.Reading.{Gives};
ghost use Rattle.dd_script_read.specs.Script.{list_of, has_items, has_keys, member_count, u32_of, i32_of};
ghost use Rattle.dd_script_read.specs.Tree.{tree_data, gathered};

use crate::fault::ScriptFault;
use crate::numbers::number_of;
use json::Value;
use serde_json::Number;

/// A JSON tree.
pub(crate) type Tree<'a> = Value<'a>;

/// A key of an object, and the tree there.
pub(crate) type Member<'a> = (&'a str, Tree<'a>);

/// The tree of a key, the last one where it stands twice.
#[tactic(auto, using(crate::proofs::Trees::tree_get), unfolding(crate::specs::Tree::tree_data))]
pub(crate) fn get<'v, 'a>(tree: &'v Tree<'a>, key: &str) -> Option<&'v Tree<'a>>
    ensures { option_map (λ v. tree_data v.now) result ≡ get key.now (tree_data tree.now) }
{
    tree.get(key)
}

/// The item of a list.
#[tactic(auto, using(crate::proofs::Trees::tree_at), unfolding(crate::specs::Tree::tree_data))]
pub(crate) fn at<'v, 'a>(tree: &'v Tree<'a>, index: usize) -> Option<&'v Tree<'a>>
    ensures { option_map (λ v. tree_data v.now) result ≡ at index (tree_data tree.now) }
{
    tree.at(index)
}

/// A text.
#[tactic(auto, unfolding(crate::specs::Tree::tree_data))]
pub(crate) fn text_of<'a>(tree: &Tree<'a>) -> Option<&'a str>
    ensures { option_map (λ s. s.now) result ≡ as_str (tree_data tree.now) }
{
    tree.as_str()
}

/// Whether something is so.
#[tactic(auto, unfolding(crate::specs::Tree::tree_data))]
pub(crate) fn truth_of(tree: &Tree<'_>) -> Option<bool>
    ensures { result ≡ as_bool (tree_data tree.now) }
{
    tree.as_bool()
}

/// The items of a list.
#[tactic(auto, unfolding(crate::specs::Tree::tree_data))]
pub(crate) fn list_of<'v, 'a>(tree: &'v Tree<'a>) -> Option<&'v [Tree<'a>]>
    ensures { option_map (λ vs. map tree_data vs.now) result ≡ list_of (tree_data tree.now) }
{
    match tree {
        Value::Array(items) => Some(items.as_slice()),
        _ => None,
    }
}

/// Whether the tree is a list of n items.
pub(crate) fn has_items(tree: &Tree<'_>, n: usize) -> bool
    ensures { result ≡ has_items n (tree_data tree.now) }
{
    match list_of(tree) {
        Some(items) => items.len() == n,
        None => false,
    }
}

/// Whether a key stands among the members. The last ones are looked at first, so that to ask it of each member in
/// turn takes no longer than the number of keys allows, however often they stand there.
fn has_key(members: &[Member<'_>], key: &str) -> bool
    ensures { result ≡ is_some (get_member key.now (gathered no_members members.now)) }
{
    members.iter().rev().any(|m| m.0 == key)
}

/// Whether the members have n keys.
fn have_keys(members: &[Member<'_>], n: usize) -> bool
    ensures { result ≡ (member_count (gathered no_members members.now) == n) }
{
    let mut count = 0;
    for i in 0..members.len() {
        if !has_key(&members[..i], members[i].0) {
            if count == n {
                return false;
            }
            count += 1;
        }
    }
    count == n
}

/// Whether the tree is an object of n keys.
#[tactic(auto, using(crate::proofs::Keys::object_keys), unfolding(crate::specs::Tree::tree_data))]
pub(crate) fn has_keys(tree: &Tree<'_>, n: usize) -> bool
    ensures { result ≡ has_keys n (tree_data tree.now) }
{
    match tree {
        Value::Object(members) => have_keys(members.as_slice(), n),
        _ => false,
    }
}

/// The tree of a key.
pub(crate) fn member<'v, 'a>(tree: &'v Tree<'a>, key: &str) -> Result<&'v Tree<'a>, ScriptFault>
    ensures { Gives (λ v. tree_data v.now) result (get key.now (tree_data tree.now)) }
{
    get(tree, key).ok_or(ScriptFault::NotScript)
}

/// A number.
#[tactic(auto, unfolding(crate::specs::Tree::tree_data))]
fn as_number(tree: &Tree<'_>) -> Option<Number>
    ensures { option_map number_view result ≡ as_number (tree_data tree.now) }
{
    number_of(tree.as_number()?)
}

/// A whole number of 32 bits.
#[tactic(auto, unfolding(crate::specs::Script::u32_of))]
pub(crate) fn u32_of(tree: &Tree<'_>) -> Option<u32>
    ensures { result ≡ u32_of (tree_data tree.now) }
{
    u32::try_from(as_number(tree)?.as_u64()?).ok()
}

/// A whole number of 32 bits with a sign.
#[tactic(auto, unfolding(crate::specs::Script::i32_of))]
pub(crate) fn i32_of(tree: &Tree<'_>) -> Option<i32>
    ensures { result ≡ i32_of (tree_data tree.now) }
{
    i32::try_from(as_number(tree)?.as_i64()?).ok()
}
