//! A run of a script as it is drawn.

use crate::layouts::Layout;
use history::{History, Source, Transaction};

/// A run of a script, the texts of its events, and where they stand.
#[derive(Clone, Copy)]
pub struct Scene<'a> {
    pub history: &'a History,
    pub events: &'a Source<'a>,
    pub layout: &'a Layout,
}

impl<'a> Scene<'a> {
    /// A transaction by its place in the history.
    pub fn transaction(self, place: usize) -> Option<&'a Transaction> {
        self.history.transactions.as_slice().get(place)
    }
}
