//! Tests of the crates from devices to drawings, over their public calls: what no clause says of
//! them and no case of a program shows.
#![tactic(auto)]

#[cfg(test)]
mod areas;
#[cfg(test)]
mod devices;
#[cfg(test)]
mod drawings;
#[cfg(test)]
mod geometry;
#[cfg(test)]
mod texts;
