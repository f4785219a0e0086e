//! The top call: a command told by its words, from the bytes that come in to those that go out.
#![tactic(auto)]

mod arguments;
mod command;
mod command_line;
mod fault;
mod keeping;
mod making;
mod options;
mod output;
mod program;
mod reading;
mod recording;
mod replay;
mod reporting;
mod status;
mod viewing;

pub use arguments::{WordsFault, words};
pub use command::{Command, MAX_FRAME, plain};
pub use program::run;
pub use reading::{MAX_RECORD_BYTES, MAX_SCRIPT_BYTES};
pub use reporting::report;
pub use status::Status;
