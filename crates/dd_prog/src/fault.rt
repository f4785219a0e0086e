//! Why a command's input wasn't read, and why a run of steps stopped.

ghost use Rattle.std.specs.Prelude.{◌≡◌};
ghost use Rattle.dd_prog.specs.declared.fault.InputFault.TheVariants as causes;
ghost use Rattle.dd_prog.specs.declared.fault.RunFault.TheVariants as faults;
ghost use Rattle.dd_prog.specs.Faults.{cause_of_read, cause_of_script, cause_of_record};

use dd_io::{Failed, OutOfMemory, ReadUpFault};
use dd_record::RecordFault;
use dd_script_read::ScriptFault;
use std::alloc::AllocError;
use thiserror::Error;

/// Why the input of a command wasn't read.
#[derive(Clone, Copy, Debug, PartialEq, Eq, Error)]
pub enum InputFault {
    #[error("the input is longer than the limit")]
    TooLong,
    #[error("the command can't take the input")]
    BadInput,
    #[error("reading failed")]
    Failed,
    #[error("out of memory")]
    OutOfMemory,
}

impl From<ReadUpFault> for InputFault {
    ghost from_gives = { λ fault cause. cause ≡ cause_of_read fault };

    fn from(fault: ReadUpFault) -> InputFault {
        match fault {
            ReadUpFault::Failed => InputFault::Failed,
            ReadUpFault::TooLong => InputFault::TooLong,
            ReadUpFault::OutOfMemory => InputFault::OutOfMemory,
        }
    }
}

impl From<ScriptFault> for InputFault {
    ghost from_gives = { λ fault cause. cause ≡ cause_of_script fault };

    fn from(fault: ScriptFault) -> InputFault {
        match fault {
            ScriptFault::NotJson => InputFault::BadInput,
            ScriptFault::NotScript => InputFault::BadInput,
            ScriptFault::OutOfMemory => InputFault::OutOfMemory,
        }
    }
}

impl From<RecordFault> for InputFault {
    ghost from_gives = { λ fault cause. cause ≡ cause_of_record fault };

    fn from(fault: RecordFault) -> InputFault {
        match fault {
            RecordFault::BadMagic => InputFault::BadInput,
            RecordFault::BadField { .. } => InputFault::BadInput,
            RecordFault::Truncated { .. } => InputFault::BadInput,
            RecordFault::OutOfMemory => InputFault::OutOfMemory,
        }
    }
}

impl From<Failed> for InputFault {
    ghost from_gives = { λ _ cause. cause ≡ causes.Failed };

    fn from(_e: Failed) -> InputFault {
        InputFault::Failed
    }
}

impl From<AllocError> for InputFault {
    ghost from_gives = { λ _ cause. cause ≡ causes.OutOfMemory };

    fn from(_e: AllocError) -> InputFault {
        InputFault::OutOfMemory
    }
}

/// Why a run of steps stopped before its end.
#[derive(Clone, Copy, Debug, PartialEq, Eq, Error)]
pub enum RunFault {
    #[error("out of memory")]
    OutOfMemory,
    #[error("the output can't be written")]
    WriteFault,
}

impl From<OutOfMemory> for RunFault {
    ghost from_gives = { λ _ fault. fault ≡ faults.OutOfMemory };

    fn from(_e: OutOfMemory) -> RunFault {
        RunFault::OutOfMemory
    }
}

impl From<Failed> for RunFault {
    ghost from_gives = { λ _ fault. fault ≡ faults.WriteFault };

    fn from(_e: Failed) -> RunFault {
        RunFault::WriteFault
    }
}
