//! The opening chunk, and what stands in a frame chunk before its moves.

ghost use Rattle.std.specs.Prelude.{◌≡◌};
ghost use Rattle.dd_record.specs.Answers.{Gives};
ghost use Rattle.dd_record.specs.Grammar.{zero_where, width_of, height_of, rotation_of, mode_of};
ghost use Rattle.dd_record.specs.Grammar.{last_present_of, last_mouse_of, accumulated_of, coalesced_of, protected_of};
ghost use Rattle.dd_record.specs.Grammar.{pointer_of, meta_of, shape_size_of, move_count_of, rect_count_of};
ghost use Rattle.dd_record.specs.Grammar.{info_of, head_of};

use crate::fault::Stop;
use crate::fields::{i32_at, kept, u8_at, u32_at, u64_at};
use dd_acc::MAX_MOVES;
use dd_calls::FrameInfo;
use dd_coal::MAX_RECTS;
use dd_geom::{MAX_PIXELS, MAX_SIDE, MOVE_BYTES, Point, RECT_BYTES};
use dd_log::{MAX_CAPACITY, Pointer};
use dd_meta::MAX_METADATA;
use dd_modes::{Mode, Rotation};
use dd_pointer::MAX_BYTES;

/// Whether a number is 0 where an earlier one is.
fn zero_where(earlier: u64, n: u64) -> bool
    ensures { result ≡ zero_where earlier n }
{
    earlier != 0 || n == 0
}

#[tactic(auto, unfolding(crate::specs::Grammar::width_of))]
fn width_of(bytes: &[u8]) -> Result<u32, Stop>
    ensures { Gives result (width_of bytes.now) }
{
    let n = u32_at(bytes, 1)?;
    kept(1, 1 <= n && n <= MAX_SIDE, n)
}

#[tactic(auto, unfolding(crate::specs::Grammar::height_of))]
fn height_of(width: u32, bytes: &[u8]) -> Result<u32, Stop>
    ensures { Gives result (height_of width bytes.now) }
{
    let n = u32_at(bytes, 5)?;
    let few = u64::from(width) * u64::from(n) <= u64::from(MAX_PIXELS);
    kept(5, 1 <= n && n <= MAX_SIDE && few, n)
}

/// The rotation of one of the API's numbers, 0 to 4.
fn rotation_of(n: u32) -> Result<Rotation, Stop>
    ensures { Gives result (rotation_of n) }
{
    Rotation::numbered(n).ok_or(Stop::Bad { at: 9 })
}

/// The mode of an opening chunk.
#[tactic(auto, unfolding(crate::specs::Grammar::mode_of))]
pub(crate) fn mode_of(bytes: &[u8]) -> Result<Mode, Stop>
    ensures { Gives result (mode_of bytes.now) }
{
    let width = width_of(bytes)?;
    let height = height_of(width, bytes)?;
    let rotation = rotation_of(u32_at(bytes, 9)?)?;
    Ok(Mode {
        width,
        height,
        rotation,
    })
}

#[tactic(auto, unfolding(crate::specs::Grammar::last_present_of))]
fn last_present_of(bytes: &[u8]) -> Result<u64, Stop>
    ensures { Gives result (last_present_of bytes.now) }
{
    let n = u64_at(bytes, 1)?;
    kept(1, n <= u64::from(MAX_CAPACITY), n)
}

#[tactic(auto, unfolding(crate::specs::Grammar::last_mouse_of))]
fn last_mouse_of(last_present: u64, bytes: &[u8]) -> Result<u64, Stop>
    ensures { Gives result (last_mouse_of last_present bytes.now) }
{
    let n = u64_at(bytes, 9)?;
    let nothing = last_present == 0 && n == 0;
    kept(9, n <= u64::from(MAX_CAPACITY) && !nothing, n)
}

#[tactic(auto, unfolding(crate::specs::Grammar::accumulated_of))]
fn accumulated_of(last_present: u64, bytes: &[u8]) -> Result<u32, Stop>
    ensures { Gives result (accumulated_of last_present bytes.now) }
{
    let n = u32_at(bytes, 17)?;
    let count = u64::from(n);
    let both = zero_where(last_present, count) && zero_where(count, last_present);
    kept(17, both && count <= last_present, n)
}

#[tactic(auto, unfolding(crate::specs::Grammar::coalesced_of))]
fn coalesced_of(accumulated: u32, bytes: &[u8]) -> Result<bool, Stop>
    ensures { Gives result (coalesced_of accumulated bytes.now) }
{
    let n = u8_at(bytes, 21)?;
    let rule = zero_where(u64::from(accumulated), u64::from(n));
    let n = kept(21, n <= 1 && rule, n)?;
    Ok(n == 1)
}

#[tactic(auto, unfolding(crate::specs::Grammar::protected_of))]
fn protected_of(bytes: &[u8]) -> Result<bool, Stop>
    ensures { Gives result (protected_of bytes.now) }
{
    let n = u8_at(bytes, 22)?;
    let n = kept(22, n <= 1, n)?;
    Ok(n == 1)
}

#[tactic(auto, unfolding(crate::specs::Grammar::pointer_of))]
fn pointer_of(bytes: &[u8]) -> Result<Pointer, Stop>
    ensures { Gives result (pointer_of bytes.now) }
{
    let x = i32_at(bytes, 23)?;
    let y = i32_at(bytes, 27)?;
    let n = u8_at(bytes, 31)?;
    let visible = kept(31, n <= 1, n)?;
    Ok(Pointer {
        position: Point { x, y },
        visible: visible == 1,
    })
}

#[tactic(auto, unfolding(crate::specs::Grammar::meta_of))]
fn meta_of(accumulated: u32, bytes: &[u8]) -> Result<u32, Stop>
    ensures { Gives result (meta_of accumulated bytes.now) }
{
    let n = u32_at(bytes, 32)?;
    let rule = zero_where(u64::from(accumulated), u64::from(n));
    kept(32, n <= MAX_METADATA && rule, n)
}

#[tactic(auto, unfolding(crate::specs::Grammar::shape_size_of))]
fn shape_size_of(last_mouse: u64, bytes: &[u8]) -> Result<u32, Stop>
    ensures { Gives result (shape_size_of last_mouse bytes.now) }
{
    let n = u32_at(bytes, 36)?;
    let rule = zero_where(last_mouse, u64::from(n));
    kept(36, n <= MAX_BYTES && rule, n)
}

#[tactic(auto, unfolding(crate::specs::Grammar::move_count_of))]
fn move_count_of(meta: u32, bytes: &[u8]) -> Result<u8, Stop>
    ensures { Gives result (move_count_of meta bytes.now) }
{
    let n = u8_at(bytes, 40)?;
    let fits = MOVE_BYTES * u32::from(n) <= meta;
    kept(40, usize::from(n) <= MAX_MOVES && fits, n)
}

#[tactic(auto, unfolding(crate::specs::Grammar::rect_count_of))]
fn rect_count_of(meta: u32, moves: u8, bytes: &[u8]) -> Result<u8, Stop>
    ensures { Gives result (rect_count_of meta moves bytes.now) }
{
    let n = u8_at(bytes, 41)?;
    let size = MOVE_BYTES * u32::from(moves) + RECT_BYTES * u32::from(n);
    kept(41, usize::from(n) <= MAX_RECTS && size == meta, n)
}

/// What is told of the frame.
#[tactic(auto, unfolding(crate::specs::Grammar::info_of))]
fn info_of(bytes: &[u8]) -> Result<FrameInfo, Stop>
    ensures { Gives result (info_of bytes.now) }
{
    let last_present = last_present_of(bytes)?;
    let last_mouse = last_mouse_of(last_present, bytes)?;
    let accumulated = accumulated_of(last_present, bytes)?;
    let coalesced = coalesced_of(accumulated, bytes)?;
    let protected = protected_of(bytes)?;
    let pointer = pointer_of(bytes)?;
    let meta_size = meta_of(accumulated, bytes)?;
    let shape_size = shape_size_of(last_mouse, bytes)?;
    Ok(FrameInfo {
        last_present,
        last_mouse,
        accumulated,
        coalesced,
        protected,
        pointer,
        meta_size,
        shape_size,
    })
}

/// What stands in a frame chunk before its moves.
#[derive(Clone, Copy, Debug)]
pub(crate) struct Head {
    pub info: FrameInfo,
    /// The number of moves.
    pub moves: u8,
    /// The number of dirty rectangles.
    pub rects: u8,
}

/// The head of a frame chunk.
#[tactic(auto, unfolding(crate::specs::Grammar::head_of))]
pub(crate) fn head_of(bytes: &[u8]) -> Result<Head, Stop>
    ensures { Gives result (head_of bytes.now) }
{
    let info = info_of(bytes)?;
    let moves = move_count_of(info.meta_size, bytes)?;
    let rects = rect_count_of(info.meta_size, moves, bytes)?;
    Ok(Head { info, moves, rects })
}
