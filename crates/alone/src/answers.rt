//! Replies to statements, and answers to events.

use crate::results::ResultRow;
use sqlite_items::Items;
use value::{Refusal, Text, Truth};

/// What a statement did.
#[derive(Debug, Drop)]
pub enum Reply {
    /// INSERT: so many rows were put in.
    Inserted(u64),
    /// UPDATE: its condition kept so many rows. One that is set to what it held is counted too.
    Updated(u64),
    /// DELETE: so many rows were taken out.
    Deleted(u64),
    /// SELECT: what it lists of each row that its WHERE kept, in key order; or of each group of them that its HAVING
    /// kept, in the order of their values. Set functions without GROUP BY are of one group of all rows.
    Rows(Items<ResultRow>),
    /// SET CONSTRAINTS: the modes were set.
    ModesSet,
    /// VERDICT: the truth of the assertion on the transaction's own tables.
    Verdict(Truth),
}

/// The answer to an event.
#[derive(Debug, Drop)]
pub enum Answer {
    /// A transaction began on the tables that so many commits left.
    Begun(u64),
    /// The statement was run.
    Replied(Reply),
    /// The transaction is the commit with this number.
    Committed(u64),
    /// The transaction was ended, and nothing of it kept.
    RolledBack,
    /// The event was refused. A COMMIT refused as violated, as a write conflict, as dangerous or by a full epoch has
    /// ended its transaction, and the committed tables are as before. After any other refusal all tables are as before.
    /// But a statement that was refused for what it read (a key that is there, a false assertion) is a part of its
    /// transaction, and what it read counts: it may make the COMMIT dangerous. One that is refused for its text or its
    /// names alone, or for want of memory, has read nothing.
    Refused(Refusal),
}

/// A COMMIT that was refused, and so ended its transaction.
#[derive(Debug, Drop)]
pub struct RefusedCommit {
    /// The session that asked for it.
    pub session: Text,
    /// Why: as violated, as a write conflict, as dangerous, or by a full epoch.
    pub refusal: Refusal,
}
