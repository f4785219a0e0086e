//! What a pixel of a shape makes of a colour of the screen.

ghost use Rattle.std.specs.Prelude.{◌≡◌, ◌+◌, ◌*◌, ◌/◌, ◌%◌, ◌^◌, ◌<◌, ◌≤◌, length, slice_index_or};
ghost use Rattle.dd_grid.specs.declared.cell.TheConstants.{COLOURS};
ghost use Rattle.dd_pointer.specs.Compositing.{channel, colour_of, under_masks, blended, masked};

/// The blue channel of a colour.
fn blue(colour: u32) -> u8
    ensures { result ≡ channel 0 colour }
{
    (colour % 0x100) as u8
}

/// The green channel of a colour.
fn green(colour: u32) -> u8
    ensures { result ≡ channel 1 colour }
{
    (colour / 0x100 % 0x100) as u8
}

/// The red channel of a colour.
fn red(colour: u32) -> u8
    ensures { result ≡ channel 2 colour }
{
    (colour / 0x1_0000 % 0x100) as u8
}

/// The colour of three channels.
fn colour_of(blue: u8, green: u8, red: u8) -> u32
    ensures value { result ≡ blue + 256 * green + 65536 * red }
    ensures small { result < COLOURS }
{
    u32::from(blue) + 0x100 * u32::from(green) + 0x1_0000 * u32::from(red)
}

/// A channel of the screen under a bit of the AND mask and one of the XOR mask.
fn under_masks(and: bool, xor: bool, screen: u8) -> u8
    ensures { result ≡ under_masks and xor screen }
{
    match (and, xor) {
        (false, false) => 0,
        (false, true) => 255,
        (true, false) => screen,
        (true, true) => 255 - screen,
    }
}

/// A channel blended with the screen's.
fn blended(alpha: u8, c: u8, screen: u8) -> u8
    ensures { result ≡ blended alpha c screen }
{
    let shape = u32::from(alpha) * u32::from(c);
    let below = u32::from(255 - alpha) * u32::from(screen);
    ((shape + below + 127) / 255) as u8
}

/// A channel that replaces the screen's, or is XORed with it.
fn masked(mask: u8, c: u8, screen: u8) -> u8
    ensures { result ≡ masked mask c screen }
{
    if mask == 0 { c } else { c ^ screen }
}

/// The colour that bits of both masks make of a colour of the screen.
pub(crate) fn monochrome(and: bool, xor: bool, screen: u32) -> u32
    ensures value { result ≡ colour_of (λ n. under_masks and xor (channel n screen)) }
    ensures small { result < COLOURS }
{
    colour_of(
        under_masks(and, xor, blue(screen)),
        under_masks(and, xor, green(screen)),
        under_masks(and, xor, red(screen)),
    )
}

/// The colour that the four bytes of a pixel, the last one alpha, make of a colour of the screen.
pub(crate) fn color(pixel: &[u8], screen: u32) -> u32
    requires { length pixel.now ≡ 4 }
    ensures value { result ≡ colour_of (λ n.
        blended (slice_index_or pixel.now 3 0) (slice_index_or pixel.now n 0) (channel n screen)) }
    ensures small { result < COLOURS }
{
    let alpha = pixel[3];
    colour_of(
        blended(alpha, pixel[0], blue(screen)),
        blended(alpha, pixel[1], green(screen)),
        blended(alpha, pixel[2], red(screen)),
    )
}

/// The colour that the four bytes of a pixel, the last one a mask, make of a colour of the screen.
pub(crate) fn masked_color(pixel: &[u8], screen: u32) -> u32
    requires { length pixel.now ≡ 4 }
    ensures value { result ≡ colour_of (λ n.
        masked (slice_index_or pixel.now 3 0) (slice_index_or pixel.now n 0) (channel n screen)) }
    ensures small { result < COLOURS }
{
    let mask = pixel[3];
    colour_of(
        masked(mask, pixel[0], blue(screen)),
        masked(mask, pixel[1], green(screen)),
        masked(mask, pixel[2], red(screen)),
    )
}
