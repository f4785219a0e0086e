//! Scripts from JSON.
#![tactic(auto)]

mod calls;
mod drawing;
mod fault;
mod limits;
mod numbers;
mod output;
mod parsing;
mod pieces;
mod pointer;
mod reading;
mod tree;
mod whole;

pub use calls::MAX_BUFFER;
pub use fault::ScriptFault;
pub use reading::{one_tree, read_steps};
