//! The lines of surfaces: a text of hexadecimal digits for each row. They are written straight from
//! the colours, since there are many.

ghost use Rattle.std.specs.Prelude.{◌≡◌, ◌++◌, ◌/◌, ◌%◌, ◌∷◌, [], true, false, OnOk, IfOk, map, slice_index};
ghost use Rattle.hex.specs.Hex.{lower_digits, encode_lower};
ghost use Rattle.serde_json.specs.View.{items_of};
ghost use Rattle.serde_json.specs.Written.{compact_text, items_text};
ghost use Rattle.dd_script_write.specs.Answers.{colour_bytes, row_digits, row_tree, rows_tree, surface_tree};

use crate::text::Text;
use dd_calls::Rows;
use dd_ops::Colours;
use std::alloc::{AllocError, Global};

const DIGITS: &[u8; 16] = b"0123456789abcdef";

/// The digit of a byte's high four bits.
fn high_digit(byte: u8) -> u8
    ensures { result ≡ slice_index lower_digits (byte / 16) }
{
    DIGITS[usize::from(byte / 16)]
}

/// The digit of a byte's low four bits.
fn low_digit(byte: u8) -> u8
    ensures { result ≡ slice_index lower_digits (byte % 16) }
{
    DIGITS[usize::from(byte % 16)]
}

/// The six digits of a colour.
#[tactic(auto, unfolding(hex::specs::Hex::encode_with))]
fn digits_of(colour: u32) -> [u8; 6]
    ensures { result ≡ encode_lower (colour_bytes colour) }
{
    let [_, red, green, blue] = colour.to_be_bytes();
    [
        high_digit(red),
        low_digit(red),
        high_digit(green),
        low_digit(green),
        high_digit(blue),
        low_digit(blue),
    ]
}

/// Writes the digits of a row, from the left.
fn put_digits(line: &mut Vec<u8>, row: &[u32]) -> Result<(), AllocError>
    ensures { OnOk result (line.new.items ≡ line.old.items ++ row_digits row.now) }
{
    for colour in row {
        line.extend_from_slice(&digits_of(*colour))?;
    }
    Ok(())
}

/// Writes a row, as the text of its digits.
fn put_row(line: &mut Vec<u8>, row: &[u32]) -> Result<(), AllocError>
    ensures { OnOk result (line.new.items ≡ line.old.items ++ compact_text (row_tree row.now)) }
{
    line.push(b'"')?;
    put_digits(line, row)?;
    line.push(b'"')?;
    Ok(())
}

/// Writes the rows that follow others, and the list's end.
fn put_further(line: &mut Vec<u8>, rows: &[Colours]) -> Result<(), AllocError>
    ensures { OnOk result (line.new.items
        ≡ line.old.items ++ items_text true (items_of (map row_tree rows.now))) }
{
    for row in rows {
        line.push(b',')?;
        put_row(line, row.as_slice())?;
    }
    line.push(b']')?;
    Ok(())
}

/// Writes the rows, and the list's end.
fn put_rows(line: &mut Vec<u8>, rows: &[Colours]) -> Result<(), AllocError>
    ensures { OnOk result (line.new.items
        ≡ line.old.items ++ items_text false (items_of (map row_tree rows.now))) }
{
    match rows {
        [first, further @ ..] => {
            put_row(line, first.as_slice())?;
            put_further(line, further)
        }
        [] => {
            line.push(b']')?;
            Ok(())
        }
    }
}

/// Writes the rows from the top, or null where there are none.
fn put_surface(line: &mut Vec<u8>, rows: &Option<Rows>) -> Result<(), AllocError>
    ensures { OnOk result (line.new.items ≡ line.old.items ++ compact_text (rows_tree rows.now)) }
{
    match rows {
        None => line.extend_from_slice(b"null"),
        Some(rows) => {
            line.push(b'[')?;
            put_rows(line, rows.as_slice())
        }
    }
}

/// The line of a surface.
#[tactic(auto, unfolding(crate::specs::Answers::surface_tree))]
pub(crate) fn surface_text(alloc: Global, rows: &Option<Rows>) -> Result<Text, AllocError>
    ensures { IfOk result (λ t. t ≡ compact_text (surface_tree rows.now) ++ 10 ∷ []) }
{
    let mut line = Vec::with_capacity(alloc, room_of(rows))?;
    line.extend_from_slice(b"{\"surface\":")?;
    put_surface(&mut line, rows)?;
    line.extend_from_slice(b"}\n")?;
    Ok(Text::from_vec(line))
}

/// How many bytes the line of a surface has, whose rows are as long as the first.
fn room_of(rows: &Option<Rows>) -> usize {
    let rows = match rows {
        Some(rows) => rows.as_slice(),
        None => &[],
    };
    let digits = match rows {
        [first, ..] => first.as_slice().len().saturating_mul(6),
        [] => 0,
    };
    let quoted = digits.saturating_add(3);
    quoted.saturating_mul(rows.len()).saturating_add(16)
}
