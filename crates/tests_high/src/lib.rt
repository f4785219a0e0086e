//! Tests of the upper layers, over their public calls: what no case of examples/ shows.
#![tactic(auto)]

#[cfg(test)]
mod dup;
#[cfg(test)]
mod log;
#[cfg(test)]
mod record;
#[cfg(test)]
mod script;
#[cfg(test)]
mod station;
#[cfg(test)]
mod view;
