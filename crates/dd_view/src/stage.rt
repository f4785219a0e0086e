//! How far a record is read.

use dd_record::RecordFault;

/// How far a record is read.
#[derive(Clone, Copy, Debug, PartialEq, Eq)]
pub(crate) enum Stage {
    /// Its first four bytes haven't come whole.
    Begun,
    /// Chunks are read.
    Going,
    /// The End chunk came.
    Ended,
    /// A fault was found.
    Failed(RecordFault),
}
