//! What a journal's file says, by its bytes: the lines of docs/JOURNAL.md, whole and with other bytes in them.
//!
//! They stand apart from `journal`, since a crate that holds tests is proved once more for them.
#![tactic(auto)]

#[cfg(test)]
mod files;
#[cfg(test)]
mod headers;
#[cfg(test)]
mod lines;
#[cfg(test)]
mod real_files;
