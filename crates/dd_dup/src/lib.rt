//! One duplicator: it acquires frames of the list at its own pace.
#![tactic(auto)]

mod anew;
mod bands;
mod calls;
mod duplicator;
mod forward;
mod frame;
mod laws;
mod news;

pub use calls::FILL;
pub use dd_calls::{DupCall, DupRefusal, FrameInfo};
pub use dd_log::Pointer;
pub use duplicator::Dup;
pub use frame::{Frame, Hidden, News, PictureNews, PointerNews};
pub use laws::{frames_are_reached, frames_rebuild, hidden_content, stands_later};
