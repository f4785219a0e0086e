//! The number that a token is, as `serde_json` has it: whole where it is written so and has 64 bits, else the nearest
//! float, and none where that is infinite.

ghost use Rattle.std.specs.Prelude.{◌≡◌, ◌==◌, ◌≤◌, length, map, true, false, IsTrue, option_map, slice_index};
ghost use Rattle.json.specs.Value.{value_view, items_of, members_view};
ghost use Rattle.serde_json.specs.Read.{number_of, number_from};
ghost use Rattle.serde_json.specs.View.{number_view};
ghost use Rattle.dd_script_read.specs.Tree.{has_numbers, items_have_numbers, members_have_numbers};

use crate::tree::{Member, Tree};
use fast_float::Numeral;
use json::Value;
use serde_json::Number;

/// Whether a number's text begins with a minus.
fn has_minus(bytes: &[u8]) -> bool
    ensures minus { result ≡ (slice_index bytes.now 0 == 45) }
    ensures some { IsTrue result → 1 ≤ length bytes.now }
{
    !bytes.is_empty() && bytes[0] == b'-'
}

/// A number with no sign.
fn unsigned(numeral: &Numeral<'_>) -> Option<Number>
    ensures { option_map number_view result ≡ number_from false numeral.now }
{
    match numeral.to_u64() {
        Some(n) => Some(Number::from(n)),
        None => Number::from_f64(numeral.to_float::<f64>(false)),
    }
}

/// A number behind a minus.
fn negative(numeral: &Numeral<'_>) -> Option<Number>
    ensures { option_map number_view result ≡ number_from true numeral.now }
{
    if let Some(n) = numeral.to_i64(true) {
        if n < 0 {
            return Some(Number::from(n));
        }
    }
    Number::from_f64(numeral.to_float::<f64>(true))
}

/// The number that a text is, where it is in range.
pub(crate) fn number_of(text: &str) -> Option<Number>
    ensures { option_map number_view result ≡ number_of text.now }
{
    let bytes = text.as_bytes();
    if has_minus(bytes) {
        negative(&Numeral::scan(&bytes[1..]))
    } else {
        unsigned(&Numeral::scan(bytes))
    }
}

/// Whether each number is in range.
#[cycle(numbers)]
pub(crate) fn has_numbers(tree: &Tree<'_>) -> bool
    ensures { result ≡ has_numbers (value_view tree.now) }
{
    match tree {
        Value::Number(text) => number_of(text).is_some(),
        Value::Array(items) => items_have_numbers(items.as_slice()),
        Value::Object(members) => members_have_numbers(members.as_slice()),
        _ => true,
    }
}

#[cycle(numbers)]
fn items_have_numbers(items: &[Tree<'_>]) -> bool
    ensures { result ≡ items_have_numbers (items_of (map value_view items.now)) }
{
    for item in items {
        if !has_numbers(item) {
            return false;
        }
    }
    true
}

#[cycle(numbers)]
fn members_have_numbers(members: &[Member<'_>]) -> bool
    ensures { result ≡ members_have_numbers (members_view members.now) }
{
    for member in members {
        if !has_numbers(&member.1) {
            return false;
        }
    }
    true
}
