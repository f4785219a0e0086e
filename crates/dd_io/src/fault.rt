//! How a read or a write can fail.
ghost use Rattle.std.specs.Prelude.{◌≡◌};
ghost use Rattle.dd_io.specs.declared.fault.ReadUpFault.TheVariants as fault;

use crate::OutOfMemory;
use std::alloc::AllocFailed;
use thiserror::Error;

/// The device behind a source or a sink failed, and its count of faults rose.
#[derive(Clone, Copy, Debug, PartialEq, Eq, Hash, Error)]
#[error("reading or writing failed")]
pub struct Failed;

/// Why the bytes up to the end of input weren't read.
#[derive(Clone, Copy, Debug, PartialEq, Eq, Hash, Error)]
pub enum ReadUpFault {
    /// The source failed, and its count of faults rose.
    #[error("reading failed")]
    Failed,
    /// The source gave more bytes than the limit.
    #[error("the input is longer than the limit")]
    TooLong,
    /// There was no memory for the bytes.
    #[error("out of memory")]
    OutOfMemory,
}

impl From<Failed> for ReadUpFault {
    ghost from_gives = { λ _ e. e ≡ fault.Failed };

    fn from(_: Failed) -> Self {
        ReadUpFault::Failed
    }
}

impl From<OutOfMemory> for ReadUpFault {
    ghost from_gives = { λ _ e. e ≡ fault.OutOfMemory };

    fn from(_: OutOfMemory) -> Self {
        ReadUpFault::OutOfMemory
    }
}

impl<T: Drop> From<AllocFailed<T>> for ReadUpFault {
    ghost from_gives = { λ _ e. e ≡ fault.OutOfMemory };

    fn from(_: AllocFailed<T>) -> Self {
        ReadUpFault::OutOfMemory
    }
}
