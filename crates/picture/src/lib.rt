//! A picture of what happened when a script was run, as SVG 1.1.
//!
//! [`picture_into`] runs a script, as `replay::replay_into` does, and draws its transactions: a lane for each session,
//! time from the top down, a box from each BEGIN to the event that ended it, with the commit's number and its place in
//! the serial order, and an arrow where one transaction read what another changed and neither saw the other, with what
//! was read. What was refused is red, and so are the arrows of a dangerous triple (docs/EXPLAIN.md tells how to read
//! it).
//!
//! The numbers, reads, changes and the order are those that the crate `history` notes; an arrow stands where
//! `siread::touches` says that a change touches a read. Twelve sessions and sixty transactions are drawn at most, the
//! first ones, and the rest is counted. The text has no script in it, and every text of the user's is escaped. Colours
//! are attributes, for whatever shows SVG, and a style for a dark ground is used where the viewer asks for one.
#![tactic(auto)]

mod arrows;
mod boxes;
mod colours;
mod curves;
mod drawing;
mod lanes;
mod layouts;
mod legends;
mod lists;
mod scenes;
mod svg;
mod words;

pub use drawing::picture_into;
