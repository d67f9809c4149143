//! Why an event was refused.

use crate::conflicts::{add_triple, add_write_conflict};
use crate::figures::add_violation;
use crate::stories::{Moment, add_number};
use crate::violations::Violation;
use delta::View;
use history::{Transaction, add_row};
use printout::Printout;
use std::alloc::{AllocError, Global};
use std::fmt::Display;
use table::Row;
use value::{Excess, Refusal, Text, Value};

/// Adds why an event was refused: for an assertion its figures, for a commit in the way what both changed, for a
/// dangerous triple its conflicts, and else a sentence.
pub fn add_refusal(
    alloc: Global,
    moment: Moment<'_>,
    refusal: &Refusal,
    out: &mut Printout,
) -> Result<(), AllocError> {
    let story = moment.story;
    match (refusal, &moment.happening.view, moment.transaction()) {
        (Refusal::Violated { assertion, group }, Some(view), _) => {
            return match Violation::of(view, assertion, group) {
                Some(violation) => add_violation(alloc, story, violation, out),
                None => Ok(()),
            };
        }
        (
            Refusal::Dangerous {
                reader,
                pivot,
                writer,
            },
            _,
            Some(this),
        ) => return add_triple(alloc, story, this, [*reader, *pivot, *writer], out),
        (Refusal::WriteConflict { table: _, key, by }, _, Some(this)) => {
            add_write_conflict(story, this, key, *by, out)
        }
        (Refusal::DuplicateKey { table, key }, Some(view), _) => add_taken(view, table, key, out),
        (Refusal::TransactionOpen, _, _) => add_open(moment, out),
        (Refusal::ReadOnlyTransaction, _, Some(this)) => add_read_only(this, out),
        _ => add_sentence(refusal, out),
    }
    Ok(())
}

/// Adds since when a transaction is open in a session.
fn add_open(moment: Moment<'_>, out: &mut Printout) {
    let (event, session) = (moment.event, moment.happening.session);
    let transactions = moment.story.history.transactions.as_slice();
    let open = transactions
        .iter()
        .rfind(|it| it.session == session && it.begun < event);
    if let Some(open) = open {
        add_number(
            "  A transaction is open in this session since event ",
            open.begun,
            out,
        );
        out.add("; COMMIT or ROLLBACK ends it.\n");
    }
}

/// Adds where a transaction began READ ONLY, and how one begins that may write.
fn add_read_only(this: &Transaction, out: &mut Printout) {
    add_number(
        "  The transaction began READ ONLY, at event ",
        this.begun,
        out,
    );
    out.add(". To write, end it, and begin one by BEGIN alone.\n");
}

/// Adds by what a key is taken: the row that stands under it, or else another row of the INSERT.
fn add_taken(view: &View, table: &Text, key: &Value, out: &mut Printout) {
    match row_under(view, table, key) {
        Some(row) => {
            add_around("  ", table, " has a row under the key ", out);
            add_around("", key, " already:\n    ", out);
            add_row(row, out);
            out.add("\n");
        }
        None => add_around("  Two rows of the INSERT have the key ", key, ".\n", out),
    }
}

/// The row that stands under a key.
fn row_under<'a>(view: &'a View, table: &Text, key: &Value) -> Option<&'a Row> {
    let table = view.catalog().position(table)?;
    view.row(table, key)
}

/// Adds a fault in a sentence.
fn add_sentence(refusal: &Refusal, out: &mut Printout) {
    match refusal {
        Refusal::UnknownName { name } => {
            add_around(
                "  Nothing that may stand there has the name ",
                name,
                ".\n",
                out,
            )
        }
        Refusal::NameTaken { name } => add_around("  The column ", name, " is named twice.\n", out),
        Refusal::NotDeferrable { assertion } => {
            add_around("  ", assertion, " was not created DEFERRABLE.\n", out)
        }
        Refusal::NoTransaction => {
            out.add("  No transaction is open in this session; BEGIN begins one.\n")
        }
        Refusal::EpochFull => out.add("  There are as many commits as --max-commits allows.\n"),
        Refusal::TooWide => {
            out.add("  An expression could pass 2^126, so it is not evaluated exactly.\n")
        }
        Refusal::OutsideClass => {
            out.add("  A condition of a statement may hold no set function and no query.\n")
        }
        _ => add_value_sentence(refusal, out),
    }
}

/// Adds a fault of the values of a statement in a sentence.
fn add_value_sentence(refusal: &Refusal, out: &mut Printout) {
    match refusal {
        Refusal::TypeMismatch => {
            out.add("  The values do not fit the columns, in number or in type.\n")
        }
        Refusal::NullNotAllowed { column } => {
            add_around("  The column ", column, " takes no NULL.\n", out)
        }
        Refusal::KeyUpdate { column } => add_around(
            "  ",
            column,
            " is the key, and an UPDATE leaves the key as it is.\n",
            out,
        ),
        Refusal::OutOfRange {
            column,
            excess: Excess::Number,
        } => add_around("  The number for ", column, " is beyond 10^15.\n", out),
        Refusal::OutOfRange {
            column,
            excess: Excess::Text,
        } => add_around(
            "  The text for ",
            column,
            " is longer than the column.\n",
            out,
        ),
        _ => {}
    }
}

/// Adds a name or a value between two texts.
fn add_around<D: Display + Copy>(front: &str, value: D, behind: &str, out: &mut Printout) {
    out.add(front);
    out.show(value);
    out.add(behind);
}
