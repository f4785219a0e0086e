//! The plain data of calls: steps, what a duplicator is asked, answers, and what answers count up to.
#![tactic(auto)]

mod answers;
mod counting;
mod dup_call;
mod rows;
mod steps;

pub use answers::{Answer, CloseRefusal, DupRefusal, FrameInfo, OpenRefusal, Role};
pub use counting::Counts;
pub use dup_call::DupCall;
pub use rows::Rows;
pub use steps::{ClientCall, MAX_CLIENTS, Script, Step, Steps};
