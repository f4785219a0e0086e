//! A screen that threads share: one list of events, which all of them see beginnings of.
#![tactic(auto)]

mod actor;
mod board;
mod client;
mod door;
mod ending;
mod holding;
mod listing;
mod looking;
mod named;
mod opening;
mod painter;
mod press;
mod published;
mod screen;
mod told;
mod unnamed;

pub use actor::Actor;
pub use board::{Board, BoardOf, MAX_SEATS, Seat};
pub use client::{Client, Tried};
pub use listing::FullList;
pub use looking::{Call, LookAnswer, Looked};
pub use named::Named;
pub use screen::{Drawn, Screen};
pub use told::Told;
pub use unnamed::Unnamed;
