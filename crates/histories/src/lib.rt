//! Histories that the tests of several crates run: scripts of sessions, and what they print, each written down once.
//!
//! A manager runs them line by line (`manager_rows`), and so does the engine; threads run them with a line in its turn
//! (`tests_of_programs`). What they print is of the same bytes each time, but that threads group it by session.
#![tactic(auto)]

mod texts;
mod three_sessions;
mod two_sessions;

use std::alloc::{AllocError, Global};
pub use texts::{COVER, EIGHT, KIM, LEDGER, LEDGER_TURNS, SEVEN, TABLES};
pub use three_sessions::{
    HARMLESS_PIVOT, LATE_READER, PIVOT_REFUSED, READ_ONLY_READER_PASSES, READ_ONLY_READER_REFUSED,
    READER_REFUSED,
};
pub use two_sessions::{
    DISJOINT_SHIFTS, LEDGER_WRITE_SKEW, READ_ONLY_INSERT, READER_BEFORE_WRITER,
    SAME_KEY_INSERTED_TWICE, SHIFT_WRITE_SKEW,
};

/// A script of sessions over [`TABLES`], and what it prints.
#[derive(Clone, Copy)]
pub struct History {
    /// What stands behind the tables, in this order.
    pub more: &'static [&'static str],
    /// The lines of the sessions.
    pub script: &'static str,
    /// The session of each line. Sessions are numbered by their first lines, from 0.
    pub turns: &'static [u8],
    /// What the lines print, in the script's order.
    pub answers: &'static str,
    /// The same, grouped by session.
    pub grouped: &'static str,
    /// What is printed behind either.
    pub closing: &'static str,
}

impl History {
    /// What stands behind the tables, as one text.
    pub fn definitions_behind(&self, alloc: Global) -> Result<String, AllocError> {
        let mut all = String::new(alloc);
        for text in self.more {
            all.push_str(text)?;
        }
        Ok(all)
    }

    /// What is printed of the lines in the script's order.
    pub fn printed(&self, alloc: Global) -> Result<String, AllocError> {
        let mut all = String::from_str(alloc, self.answers)?;
        all.push_str(self.closing)?;
        Ok(all)
    }
}
