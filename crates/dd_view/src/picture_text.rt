//! A surface as text, turned for its viewer: plain PPM.

ghost use Rattle.std.specs.Prelude.{◌≡◌, ◌<◌, ◌++◌, IfOk, OnOk};
ghost use Rattle.dd_grid.specs.Drawing.{colour_at};
ghost use Rattle.dd_modes.specs.Turning.{turned_height, turned_width};
ghost use Rattle.dd_view.specs.Ppm.{HasSizeOf, number_then, pixel_text, turned_colour, row_text, rows_text, head_text, ppm_text};

use dd_grid::Surface;
use dd_io::Bytes;
use dd_modes::{Mode, turned_size, unturned};
use itoa::Buffer;
use std::alloc::{AllocError, Global};

/// Writes a number in decimal, and a byte behind it.
fn put_number(text: &mut Vec<u8>, n: u32, behind: u8) -> Result<(), AllocError>
    ensures { OnOk result (text.new.items ≡ text.old.items ++ number_then n behind) }
{
    let mut buffer = Buffer::new();
    text.extend_from_slice(buffer.format(n).as_bytes())?;
    text.push(behind)?;
    Ok(())
}

/// Writes red, green and blue of a colour.
#[tactic(auto, unfolding(crate::specs::Ppm::pixel_text))]
fn put_pixel(text: &mut Vec<u8>, colour: u32) -> Result<(), AllocError>
    ensures { OnOk result (text.new.items ≡ text.old.items ++ pixel_text colour) }
{
    put_number(text, colour / 0x1_0000 % 0x100, b' ')?;
    put_number(text, colour / 0x100 % 0x100, b' ')?;
    put_number(text, colour % 0x100, b'\n')
}

/// The colour of a point.
fn colour_at(s: &Surface, x: u32, y: u32) -> u32
    requires x { x < s.now.width }
    requires y { y < s.now.height }
    ensures { result ≡ colour_at s.now x y }
{
    prove!(x < s.width());
    s.row(y)[x as usize]
}

/// The colour that stands at a point of the turned picture.
fn turned_colour(s: &Surface, m: Mode, x: u32, y: u32) -> u32
    requires size { HasSizeOf m s.now }
    requires x { x < turned_width m }
    requires y { y < turned_height m }
    ensures { result ≡ turned_colour s.now m x y }
{
    let (column, row) = unturned(m, x, y);
    colour_at(s, column, row)
}

/// Writes a row of the turned picture.
fn put_row(text: &mut Vec<u8>, s: &Surface, m: Mode, y: u32) -> Result<(), AllocError>
    requires size { HasSizeOf m s.now }
    requires y { y < turned_height m }
    ensures { OnOk result (text.new.items ≡ text.old.items ++ row_text s.now m y (turned_width m)) }
{
    let (width, _) = turned_size(m);
    for x in 0..width {
        put_pixel(text, turned_colour(s, m, x, y))?;
    }
    Ok(())
}

/// Writes all rows of the turned picture.
fn put_rows(text: &mut Vec<u8>, s: &Surface, m: Mode) -> Result<(), AllocError>
    requires { HasSizeOf m s.now }
    ensures { OnOk result (text.new.items ≡ text.old.items ++ rows_text s.now m (turned_height m)) }
{
    let (_, height) = turned_size(m);
    for y in 0..height {
        put_row(text, s, m, y)?;
    }
    Ok(())
}

/// Writes what stands before the pixels.
#[tactic(auto, unfolding(crate::specs::Ppm::head_text))]
fn put_head(text: &mut Vec<u8>, m: Mode) -> Result<(), AllocError>
    ensures { OnOk result (text.new.items ≡ text.old.items ++ head_text m) }
{
    let (width, height) = turned_size(m);
    text.extend_from_slice(b"P3\n")?;
    put_number(text, width, b' ')?;
    put_number(text, height, b'\n')?;
    put_number(text, 255, b'\n')
}

/// The picture of a surface of this mode, turned for its viewer, as plain PPM: `P3`, width and height,
/// 255, and for each pixel, row by row, red, green and blue in decimal and a line feed.
pub fn ppm(alloc: Global, s: &Surface, m: Mode) -> Result<Bytes, AllocError>
    requires { HasSizeOf m s.now }
    ensures { IfOk result (λ text. text ≡ ppm_text s.now m) }
{
    let mut text = Vec::new(alloc);
    put_head(&mut text, m)?;
    put_rows(&mut text, s, m)?;
    Ok(Bytes::from_vec(text))
}
