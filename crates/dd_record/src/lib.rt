//! The bytes of a record: its chunks, and the rule of each field.
#![tactic(auto)]

mod chunk;
mod fault;
mod fields;
mod head;
mod laws;
mod layout;
mod pages;
mod pixels;
mod rectangles;
mod shapes;
mod writing;

pub use chunk::{Chunk, FrameChunk, Parsed, parse_chunk, parse_chunk_from};
pub use fault::RecordFault;
pub use laws::{
    bad_has_come, frames_keep_rules, reading_stays, reads_what_is_written, tells_canonical,
};
pub use writing::{write_end, write_frame, write_magic, write_opening};
