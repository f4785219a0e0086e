//! How a command ended.

ghost use Rattle.std.specs.Prelude.{◌≡◌};
ghost use Rattle.std.specs.Process.{exit_status};
ghost use Rattle.dd_prog.specs.Status.{line_of, number_of};

use std::process::ExitCode;

/// How a command ended. Its number, from 0 in this order, is the exit status of the program.
#[derive(Clone, Copy, Debug, PartialEq, Eq, Hash)]
pub enum Status {
    /// All of the output was written.
    Done,
    /// Memory was wanting; a front of the output may have been written.
    OutOfMemory,
    /// The words are no command. Nothing was read or written.
    BadWords,
    /// More bytes came than the command takes. Nothing was written.
    TooLong,
    /// The bytes are no script. Nothing was written.
    BadScript,
    /// The bytes are no record. Nothing was written.
    BadRecord,
    /// The source failed. Nothing was written.
    ReadFault,
    /// The sink failed; a front of the output was written.
    WriteFault,
}

impl Status {
    /// The number of the status, from 0 to 7.
    pub fn number(self) -> u8
        ensures { result ≡ number_of self }
    {
        self as u8
    }

    /// The exit code of the program that ends so.
    pub fn exit_code(self) -> ExitCode
        ensures { exit_status result ≡ number_of self }
    {
        ExitCode::from(self.number())
    }

    /// What the program prints of the status: its name, as it is spelled here, and a line feed; of
    /// Done nothing.
    pub fn line(self) -> &'static str
        ensures { result.now ≡ line_of self }
    {
        match self {
            Status::Done => "",
            Status::OutOfMemory => "OutOfMemory\n",
            Status::BadWords => "BadWords\n",
            Status::TooLong => "TooLong\n",
            Status::BadScript => "BadScript\n",
            Status::BadRecord => "BadRecord\n",
            Status::ReadFault => "ReadFault\n",
            Status::WriteFault => "WriteFault\n",
        }
    }
}
