//! Answers, scripts and counts as lines of JSON.
#![tactic(auto)]

mod answers;
mod buffers;
mod counts;
mod drawing;
mod frames;
mod refusals;
mod scripts;
mod surfaces;
mod text;

pub use answers::answer_text;
pub use counts::counts_text;
pub use scripts::script_text;
pub use text::Text;
