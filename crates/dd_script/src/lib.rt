//! Scripts from JSON and as JSON, and answers and counts as lines of JSON: the calls that read,
//! those that write, and the laws of both.
#![tactic(auto)]

pub use dd_script_laws::{reading_undoes_spelling, scripts_read_back};
pub use dd_script_read::{MAX_BUFFER, ScriptFault, one_tree, read_steps};
pub use dd_script_write::{Text, answer_text, counts_text, script_text};
