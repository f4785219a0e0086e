//! The pixels of a frame's dirty rectangles.

ghost use Rattle.std.specs.Prelude.{◌≤◌, ◌^◌, length, take};
ghost use Rattle.dd_record.specs.Answers.{Gives, IsGood, Passes};
ghost use Rattle.dd_record.specs.Reading.{NothingBad};
ghost use Rattle.dd_record.specs.Grammar.{pixel_at, pixels_of};

use crate::fault::Stop;
use crate::fields::{come, kept};
use crate::layout::PIXEL_BYTES;
use byteorder::{ByteOrder, LittleEndian};
use dd_ops::Colours;
use std::alloc::Global;

/// The colour of the pixel at a place.
#[tactic(auto, unfolding(crate::specs::Grammar::pixel_at))]
fn pixel_at(bytes: &[u8], at: usize) -> Result<u32, Stop>
    ensures { Gives result (pixel_at bytes.now at) }
{
    let field: [u8; 4] = come(bytes, at)?;
    kept(at, field[3] == 255, LittleEndian::read_u24(&field))
}

/// Tests so many pixels from a place on, of which those within the first `good` bytes were tested
/// before.
#[tactic(auto, using(crate::proofs::Before::testing))]
pub(crate) fn pixels_good(count: usize, bytes: &[u8], at: usize, good: usize) -> Result<(), Stop>
    requires place { at ≤ 2 ^ 40 }
    requires few { count ≤ 2 ^ 32 }
    requires good { good ≤ length bytes.now }
    requires before { NothingBad (pixels_of count (take good bytes.now) at) }
    ensures { Passes result (pixels_of count bytes.now at) }
{
    let tested = count.min(good.saturating_sub(at) / PIXEL_BYTES);
    for i in tested..count {
        pixel_at(bytes, at + PIXEL_BYTES * i)?;
    }
    Ok(())
}

/// The colours of so many pixels from a place on, which were tested.
#[tactic(auto, using(crate::proofs::OneByOne::one_by_one))]
pub(crate) fn pixels_of(
    alloc: Global,
    count: usize,
    bytes: &[u8],
    at: usize,
) -> Result<Colours, Stop>
    requires place { at ≤ 2 ^ 40 }
    requires few { count ≤ 2 ^ 32 }
    requires tested { IsGood (pixels_of count bytes.now at) }
    ensures { Gives result (pixels_of count bytes.now at) }
{
    // All of them have come, so this is no more memory than the bytes take.
    let mut colours = Vec::with_capacity(alloc, count)?;
    for i in 0..count {
        let colour = pixel_at(bytes, at + PIXEL_BYTES * i)?;
        colours.push(colour)?;
    }
    Ok(Colours::from_vec(colours))
}
