//! Which reads of one transaction the changes of another touch.

use crate::histories::{End, Read, Transaction};
use siread::touches;
use std::alloc::AllocError;
use table::Change;

/// A read of one transaction, and a change of another that touches it.
#[derive(Clone, Copy)]
pub struct Conflict<'a> {
    pub read: &'a Read,
    pub change: &'a Change,
}

/// Whether two transactions may conflict: both asked to be committed, neither's snapshot holds the other, and of one
/// that was refused the other is a commit that stood there when it asked.
pub fn are_apart(one: &Transaction, other: &Transaction) -> bool {
    let did_meet = match (one.end, other.end) {
        (End::Committed, End::Committed) => one.number != other.number,
        (End::Refused, End::Committed) => other.number < one.number,
        (End::Committed, End::Refused) => one.number < other.number,
        _ => false,
    };
    did_meet && one.snapshot < other.number && other.snapshot < one.number
}

/// The first read of the one that a change of the other touches, with the first such change: the conflict that the one
/// read what the other wrote.
pub fn conflict_between<'a>(
    reader: &'a Transaction,
    writer: &'a Transaction,
) -> Option<Conflict<'a>> {
    for read in &reader.reads {
        if let Some(change) = first_touching(writer.changes.as_slice(), read) {
            return Some(Conflict { read, change });
        }
    }
    None
}

/// The first change that touches a read.
fn first_touching<'a>(changes: &'a [Change], read: &Read) -> Option<&'a Change> {
    changes.iter().find(|it| touches(it, &read.key))
}

/// Lists each read of the one that a change of the other touches, with the first such change, in the order of the
/// reads.
pub fn push_conflicts<'a>(
    reader: &'a Transaction,
    writer: &'a Transaction,
    found: &mut Vec<Conflict<'a>>,
) -> Result<(), AllocError> {
    for read in &reader.reads {
        if let Some(change) = first_touching(writer.changes.as_slice(), read) {
            found.push(Conflict { read, change })?;
        }
    }
    Ok(())
}
