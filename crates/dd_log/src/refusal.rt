//! Why a drawing is refused.

use thiserror::Error;

/// Why a drawing wasn't appended to the list.
#[derive(Clone, Copy, Debug, PartialEq, Eq, Error)]
pub enum LogRefusal {
    #[error("the list has ended")]
    Ended,
    #[error("the list is full")]
    Full,
    #[error("the output has no such mode")]
    BadMode,
    /// Operation number `op`, from 0, is the first that doesn't fit the mode.
    #[error("operation {op} doesn't fit the mode")]
    BadRect { op: u32 },
}
