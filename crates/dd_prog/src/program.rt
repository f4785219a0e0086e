//! The program over the words and the streams that the system gives.

ghost use Rattle.std.specs.Prelude.{◌≡◌};
ghost use Rattle.std.specs.Process.{exit_status};
ghost use Rattle.dd_prog.specs.Status.{number_of};
ghost use Rattle.dd_prog.specs.declared.status.Status.{Status};

use crate::arguments::words;
use crate::reporting::report;
use dd_io::{StdSink, StdSource};
use std::process::ExitCode;
use std::{env, io};

/// Does the command that the program's words are, over its standard input and output, names a status
/// other than Done on standard error, and gives the status's number.
pub fn run(rt: &HostRuntime) -> ExitCode
    ensures { (status : Status) × (exit_status result ≡ number_of status) }
{
    let alloc = rt.alloc();
    let words = words(alloc, env::args(rt));
    let mut source = StdSource::new(rt.reader());
    let mut sink = StdSink::new(io::writer(rt));
    let mut names = StdSink::new(rt.stderr());
    report(alloc, words, &mut source, &mut sink, &mut names).exit_code()
}
