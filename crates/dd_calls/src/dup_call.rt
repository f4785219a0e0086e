//! What a duplicator is asked.

/// What a duplicator is asked.
#[derive(Clone, Copy, Debug, PartialEq, Eq)]
pub enum DupCall {
    /// Acquires a frame (AcquireNextFrame).
    Acquire,
    /// Releases the frame (ReleaseFrame).
    Release,
    /// Asks for the held frame's moves in a buffer of this many bytes (GetFrameMoveRects).
    Moves { buffer: u32 },
    /// Asks for the held frame's dirty rectangles in a buffer of this many bytes
    /// (GetFrameDirtyRects).
    Dirty { buffer: u32 },
    /// Asks for the held frame's new shape in a buffer of this many bytes (GetFramePointerShape).
    Shape { buffer: u32 },
    /// Asks for the rows of the acquired surface.
    Surface,
    /// Asks for the mode at the opening (GetDesc).
    Desc,
}
