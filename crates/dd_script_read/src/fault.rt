//! Why bytes aren't a script.

ghost use Rattle.std.specs.Prelude.{◌≡◌};
ghost use Rattle.dd_script_read.specs.declared.fault.ScriptFault.TheVariants.{NotScript, OutOfMemory};
ghost use Rattle.dd_ops.specs.declared.lists.OpsFault.TheVariants as ops;

use dd_ops::OpsFault;
use std::alloc::{AllocError, AllocFailed};
use thiserror::Error;

/// Why a script wasn't read.
#[derive(Clone, Copy, Debug, PartialEq, Eq, Hash, Error)]
pub enum ScriptFault {
    /// The bytes are no JSON text.
    #[error("the script is no JSON")]
    NotJson,
    /// The JSON tree is no script.
    #[error("the tree is no script")]
    NotScript,
    #[error("out of memory")]
    OutOfMemory,
}

impl From<AllocError> for ScriptFault {
    ghost from_gives = { λ _ e. e ≡ OutOfMemory };

    fn from(_: AllocError) -> Self {
        ScriptFault::OutOfMemory
    }
}

impl<T: Drop> From<AllocFailed<T>> for ScriptFault {
    ghost from_gives = { λ _ e. e ≡ OutOfMemory };

    fn from(_: AllocFailed<T>) -> Self {
        ScriptFault::OutOfMemory
    }
}

impl From<OpsFault> for ScriptFault {
    ghost from_gives = { λ f e. (f ≡ ops.TooMany → e ≡ NotScript)
        × (f ≡ ops.OutOfMemory → e ≡ OutOfMemory) };

    fn from(fault: OpsFault) -> Self {
        match fault {
            OpsFault::TooMany => ScriptFault::NotScript,
            OpsFault::OutOfMemory => ScriptFault::OutOfMemory,
        }
    }
}
