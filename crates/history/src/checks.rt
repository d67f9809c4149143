//! What the check of each assertion read.

use crate::histories::{Read, Reader, Transaction};
use alone::Modes;
use changes::push_check;
use delta::View;
use siread::LockKey;
use std::alloc::{AllocError, Global};
use table::Change;

/// Puts what the check of each assertion that is meant reads over these changes behind the reads of a transaction, as
/// read by its last event.
pub fn push_checks(
    alloc: Global,
    transaction: &mut Transaction,
    view: &View,
    meant: &Modes,
    changes: &[Change],
) -> Result<(), AllocError> {
    for place in 0..view.assertions().len() {
        if place < meant.len() && meant.is_immediate(place) {
            let mut keys = Vec::new(alloc);
            push_check(&mut keys, view, place, changes)?;
            push_reads(transaction, keys, Reader::Check(place))?;
        }
    }
    Ok(())
}

/// Puts keys behind the reads of a transaction, as read by its last event and this reader.
fn push_reads(
    transaction: &mut Transaction,
    keys: Vec<LockKey>,
    reader: Reader,
) -> Result<(), AllocError> {
    let event = transaction.ended;
    for key in keys {
        transaction.reads.push(Read { key, event, reader })?;
    }
    Ok(())
}
