//! Transactions and conflicts in words.

use crate::arrows::Arrow;
use alone::Answer;
use history::{End, History, Transaction};
use printout::Printout;
use value::Refusal;

/// Adds the event that ended a transaction, with what became of it.
pub fn add_last_event(history: &History, it: &Transaction, out: &mut Printout) {
    match it.end {
        End::Committed => {
            out.add("COMMIT ");
            add_place(history, it.number, out);
        }
        End::Refused => {
            out.add("COMMIT ");
            add_ending(history, it, out);
        }
        End::RolledBack | End::Open => out.add("ROLLBACK"),
    }
}

/// Adds how a transaction ended.
pub fn add_ending(history: &History, it: &Transaction, out: &mut Printout) {
    match it.end {
        End::Committed => {
            out.add("commit ");
            add_place(history, it.number, out);
        }
        End::Refused => out.add_all(&["refused, ", fault_of(history, it)]),
        End::RolledBack => out.add("rolled back"),
        End::Open => out.add("open"),
    }
}

/// Adds the number of a commit, and its place in the serial order.
pub fn add_place(history: &History, number: u64, out: &mut Printout) {
    out.show(number);
    if let Some(place) = history.place(number) {
        out.add(", place ");
        out.show(place);
    }
}

/// The number of the fault for which the COMMIT of a transaction was refused.
fn fault_of(history: &History, it: &Transaction) -> &'static str {
    let Some(happening) = history.events.as_slice().get(it.ended) else {
        return "";
    };
    match &happening.answer {
        Answer::Refused(Refusal::Violated { .. }) => "10",
        Answer::Refused(Refusal::WriteConflict { .. }) => "12",
        Answer::Refused(Refusal::Dangerous { .. }) => "13",
        Answer::Refused(Refusal::EpochFull) => "17",
        _ => "",
    }
}

/// Adds a transaction in a sentence: how it ended, its events, its snapshot and its session.
pub fn add_summary(history: &History, it: &Transaction, out: &mut Printout) {
    add_ending(history, it, out);
    out.add("; events ");
    out.show(it.begun.saturating_add(1));
    out.add(" to ");
    out.show(it.ended.saturating_add(1));
    out.add(", snapshot ");
    out.show(it.snapshot);
    if it.read_only {
        out.add(", read only");
    }
    add_session(", session ", history, it, out);
}

/// Adds the session of a transaction, behind a text.
fn add_session(front: &str, history: &History, it: &Transaction, out: &mut Printout) {
    if let Some(name) = history.session(it.session) {
        out.add(front);
        out.show(name);
    }
}

/// Adds what an arrow says.
pub fn add_meaning(history: &History, arrow: Arrow<'_>, out: &mut Printout) {
    let transactions = history.transactions.as_slice();
    let (Some(from), Some(to)) = (transactions.get(arrow.from), transactions.get(arrow.to)) else {
        return;
    };
    add_who(history, from, out);
    match arrow.read {
        Some(read) => {
            out.add(" read ");
            history.add_key(&read.key, out);
            out.add(", which ");
        }
        None => out.add(" changed a row that "),
    }
    add_who(history, to, out);
    out.add(" changed");
}

/// Adds who a transaction is.
fn add_who(history: &History, it: &Transaction, out: &mut Printout) {
    match it.end {
        End::Committed => {
            out.add("commit ");
            out.show(it.number);
        }
        _ => out.add("the refused transaction"),
    }
    add_session(" of ", history, it, out);
}
