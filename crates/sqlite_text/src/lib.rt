//! Tables and their rows as SQL for SQLite 3, so that its shell answers any question of them.
//!
//! [`print_into`] writes the tables of a view with their rows, table by table, as one transaction for an empty
//! database. Assertions are not translated; a comment in front names them.
//!
//! What is proved here is that printing is safe and ends, and that nothing is written before each table is known to be
//! one that SQLite takes. That SQLite has the same rows then is tested (tools/sqlite_rows.py).
//!
//! `tables` has tables, rows and constants.
#![tactic(auto)]

ghost use Rattle.std.specs.Prelude.{◌≡◌, true, false, IfErr};
ghost use Rattle.sqlite_text.specs.Faults.{is_before_writing};

mod faults;
mod tables;

use assertion::Assertion;
use delta::View;
pub use faults::PrintFault;
use printout::Printout;
use std::alloc::Global;
use std::io::Write;
use table::Row;

const HEAD: &str = "-- Tables and rows, for an empty database of SQLite 3.\n";

/// What was put together is written as soon as it is so long.
const PIECE: usize = 1 << 16;

/// Writes the SQL of tables and their rows: one transaction, for an empty database. A comment in front says after which
/// commit the rows are so, if that is given, and which assertions are not translated.
///
/// # Errors
///
/// [`PrintFault::ReservedName`] and [`PrintFault::ManyColumns`] at a table that SQLite would not make; nothing is
/// written then. [`PrintFault::NoMemory`] where no memory is left, and [`PrintFault::Output`] at the first fault of the
/// writer; after both a part may be written.
#[tactic(auto, using(crate::proofs::Late::nothing_before))]
pub fn print_into<W: Write>(
    alloc: Global,
    view: &View,
    commit: Option<u64>,
    out: &mut W,
) -> Result<(), PrintFault>
    ensures nothing { IfErr result (λ fault. is_before_writing fault ≡ true → out.new ≡ out.old) }
{
    tables::require_takeable(view)?;
    print_all(alloc, view, commit, out)
}

/// Writes all of it.
fn print_all<W: Write>(
    alloc: Global,
    view: &View,
    commit: Option<u64>,
    out: &mut W,
) -> Result<(), PrintFault>
    ensures late { IfErr result (λ fault. is_before_writing fault ≡ false) }
{
    let mut sql = Printout::new(alloc);
    sql.add(HEAD);
    add_commit(&mut sql, commit);
    add_untranslated(&mut sql, view.assertions());
    sql.add("BEGIN;\n");
    for table in 0..view.catalog().len() {
        print_table(&mut sql, view, table, out)?;
    }
    sql.add("COMMIT;\n");
    sql.finish_into(out)?;
    Ok(())
}

/// Adds a comment that says after which commit the rows are so.
fn add_commit(sql: &mut Printout, commit: Option<u64>) {
    if let Some(number) = commit {
        sql.add("-- The rows are those after commit ");
        sql.show(number);
        sql.add(".\n");
    }
}

/// Adds a comment that names the assertions.
fn add_untranslated(sql: &mut Printout, assertions: &[Assertion]) {
    let mut before = "-- Assertions are not translated, so nothing keeps them here: ";
    for assertion in assertions {
        sql.add(before);
        sql.show(&assertion.name);
        before = ", ";
    }
    if !assertions.is_empty() {
        sql.add(".\n");
    }
}

/// Writes a table and its rows.
fn print_table<W: Write>(
    sql: &mut Printout,
    view: &View,
    table: usize,
    out: &mut W,
) -> Result<(), PrintFault>
    ensures late { IfErr result (λ fault. is_before_writing fault ≡ false) }
{
    tables::add_table(sql, view, table);
    if table < view.catalog().len() {
        for row in view.rows(table).iter() {
            print_row(sql, view, table, row, out)?;
        }
    }
    Ok(())
}

fn print_row<W: Write>(
    sql: &mut Printout,
    view: &View,
    table: usize,
    row: &Row,
    out: &mut W,
) -> Result<(), PrintFault>
    ensures late { IfErr result (λ fault. is_before_writing fault ≡ false) }
{
    tables::add_row(sql, view, table, row);
    if sql.text()?.len() >= PIECE {
        sql.write_into(out)?;
    }
    Ok(())
}
