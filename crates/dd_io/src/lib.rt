//! The outside as traits: where bytes come from, where they go, and how often that failed.
#![tactic(auto)]

mod counted;
mod fault;
mod lists;
mod mem;
mod schedule;
mod sink;
mod source;
mod std_io;
mod transfer;

pub use counted::MAX_TRIES;
pub use fault::{Failed, ReadUpFault};
pub use lists::{Bytes, Numbers};
pub use mem::{MemSink, MemSource};
pub use sink::Sink;
pub use source::Source;
pub use std_io::{StdSink, StdSource};
pub use transfer::{CHUNK, read_piece, read_up_to, write_all};

/// There was no memory.
pub use std::alloc::AllocError as OutOfMemory;
