//! Transactions with what they read and changed, and the events of a script with what each was answered.

use crate::words::{add_change, add_key};
use alone::Answer;
use delta::View;
use printout::Printout;
use siread::LockKey;
use sqlite_items::Items;
use std::alloc::Global;
use syntax::ScriptLine;
use table::Change;
use value::Text;

/// Who read a key: a statement by its WHERE or its key, or the check of an assertion, by its place in the order of
/// creation.
#[derive(Clone, Copy, Debug, PartialEq, Eq)]
pub enum Reader {
    Statement,
    Check(usize),
}

/// A key that a transaction read, with the event that read it, by its place in the script.
#[derive(Debug, Drop)]
pub struct Read {
    pub key: LockKey,
    pub event: usize,
    pub reader: Reader,
}

impl Read {
    /// Whether another read is of the same key by the same reader, whatever their events.
    pub fn is_again(&self, other: &Read) -> bool {
        self.reader == other.reader && self.key == other.key
    }
}

/// How a transaction ended.
#[derive(Clone, Copy, Debug, PartialEq, Eq)]
pub enum End {
    /// It is open when the script ends, and is rolled back then.
    Open,
    RolledBack,
    Committed,
    /// Its COMMIT was refused.
    Refused,
}

/// A transaction of a script.
#[derive(Debug, Drop)]
pub struct Transaction {
    /// Its session, by its place among the sessions.
    pub session: usize,
    /// The event of its BEGIN, by its place in the script.
    pub begun: usize,
    /// Its last event.
    pub ended: usize,
    pub end: End,
    /// Whether it began READ ONLY.
    pub read_only: bool,
    /// How many commits its snapshot holds.
    pub snapshot: u64,
    /// Its number, if it was committed; if its COMMIT was refused, the number that it would have had. Else 0.
    pub number: u64,
    /// What it read, in the order in which it did. A key may stand there more than once.
    pub reads: Vec<Read>,
    /// Its net change at COMMIT, by table and key.
    pub changes: Items<Change>,
}

/// An event of a script, with what it was answered.
#[derive(Drop)]
pub struct Happening {
    pub answer: Answer,
    /// Its session, by its place among the sessions.
    pub session: usize,
    /// The transaction in which it stands, by its place in the history.
    pub transaction: Option<usize>,
    /// The rows that the statement changed, or would have changed had it not been refused.
    pub changes: Vec<Change>,
    /// The tables as the transaction would have had them, of an event that was refused: for an assertion, those on
    /// which it would be false.
    pub view: Option<View>,
}

impl Happening {
    /// Whether the event was refused.
    pub fn is_refused(&self) -> bool {
        matches!(self.answer, Answer::Refused(_))
    }
}

/// What happened when a script was run.
#[derive(Drop)]
pub struct History {
    /// The tables before the first event; none as long as no script was run.
    pub(crate) loaded: Option<View>,
    pub lines: Items<ScriptLine>,
    /// One for each event, in their order.
    pub events: Vec<Happening>,
    /// In the order in which they began.
    pub transactions: Vec<Transaction>,
    /// The numbers of the commits in their serial order.
    pub order: Vec<u64>,
    /// In the order of their first events.
    pub sessions: Vec<Text>,
}

impl History {
    /// Nothing has happened yet.
    pub fn new(alloc: Global) -> History {
        History {
            loaded: None,
            lines: Items::new(alloc),
            events: Vec::new(alloc),
            transactions: Vec::new(alloc),
            order: Vec::new(alloc),
            sessions: Vec::new(alloc),
        }
    }

    /// The name of a session.
    pub fn session(&self, session: usize) -> Option<&Text> {
        self.sessions.as_slice().get(session)
    }

    /// The name of an assertion, by its place in the order of creation.
    pub fn assertion(&self, place: usize) -> Option<&Text> {
        match self.loaded.as_ref()?.assertions().get(place) {
            Some(assertion) => Some(&assertion.name),
            None => None,
        }
    }

    /// Adds what a key means, as [`add_key`] does.
    pub fn add_key(&self, key: &LockKey, out: &mut Printout) {
        if let Some(view) = &self.loaded {
            add_key(view, key, out);
        }
    }

    /// Adds what a change did to its row.
    pub fn add_change(&self, change: &Change, out: &mut Printout) {
        if let Some(view) = &self.loaded {
            add_change(view, change, out);
        }
    }

    /// The committed transaction of a number.
    pub fn commit(&self, number: u64) -> Option<&Transaction> {
        self.transactions
            .iter()
            .find(|it| it.end == End::Committed && it.number == number)
    }

    /// The place of a commit in the serial order, from 1 upwards.
    pub fn place(&self, number: u64) -> Option<usize> {
        match self.order.iter().position(|it| *it == number) {
            Some(place) => place.checked_add(1),
            None => None,
        }
    }
}
