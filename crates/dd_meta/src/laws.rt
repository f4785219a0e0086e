//! How long a frame's metadata may be: laws, which do nothing when they run.

ghost use Rattle.dd_meta.specs.Buffer.{MetadataIsShort, MovesFit, RectsFit};

/// 16 moves and 64 dirty rectangles, the most of a frame, have at most `MAX_METADATA` bytes.
pub fn metadata_is_short()
    ensures { MetadataIsShort }
{}

/// A buffer of `MOVES_BUFFER` bytes is never too short for the moves of a frame, at most 16.
pub fn moves_fit()
    ensures { MovesFit }
{}

/// A buffer of `RECTS_BUFFER` bytes is never too short for the dirty rectangles of a frame, at most
/// 64.
pub fn rects_fit()
    ensures { RectsFit }
{}
