//! A script that is made from a number: 300 rounds of drawing, and three clients that look.
#![tactic(auto)]

mod drawing;
mod generator;
mod laws;
mod rounds;
mod script;

pub use laws::scripts_are_made;
pub use script::make;
