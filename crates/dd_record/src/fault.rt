//! Why bytes aren't a record, and why a chunk isn't read.

ghost use Rattle.std.specs.Prelude.{◌≡◌};
ghost use Rattle.dd_record.specs.declared.fault.Stop.TheVariants.{OutOfMemory};

use std::alloc::{AllocError, AllocFailed};
use thiserror::Error;

/// Why bytes aren't a record. Places are counted in bytes from 0.
#[derive(Clone, Copy, Debug, PartialEq, Eq, Error)]
pub enum RecordFault {
    /// The first four bytes aren't `DDR1`.
    #[error("the first four bytes aren't DDR1")]
    BadMagic,
    /// At this place begins the first field that breaks its rule.
    #[error("the field at byte {at} breaks its rule")]
    BadField { at: u64 },
    /// The bytes end here, before the End chunk.
    #[error("the record ends at byte {at}, before its end")]
    Truncated { at: u64 },
    #[error("out of memory")]
    OutOfMemory,
}

/// Why a part of a chunk isn't read. Places are counted from the chunk's tag.
#[derive(Clone, Copy, Debug, PartialEq, Eq)]
pub(crate) enum Stop {
    /// At this place begins the first field that has come whole and breaks its rule.
    Bad { at: usize },
    /// No field that has come is bad, and bytes are missing.
    Short,
    OutOfMemory,
}

impl From<AllocError> for Stop {
    ghost from_gives = { λ _ stop. stop ≡ OutOfMemory };

    fn from(_e: AllocError) -> Stop {
        Stop::OutOfMemory
    }
}

impl<T: Drop> From<AllocFailed<T>> for Stop {
    ghost from_gives = { λ _ stop. stop ≡ OutOfMemory };

    fn from(_e: AllocFailed<T>) -> Stop {
        Stop::OutOfMemory
    }
}
