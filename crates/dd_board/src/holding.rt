//! A client's duplicator.

use dd_dup::Dup;

/// A duplicator, and the slot that its opening took, 0 to 3.
#[derive(Debug, Drop)]
pub struct Holding {
    pub(crate) dup: Dup,
    pub(crate) slot: u32,
}
