//! Tables, rows and assertions as SQL for PostgreSQL 15 or later, which keeps the assertions there.
//!
//! [`print_into`] writes the tables of a view with their rows, and what enforces each of its assertions: after each
//! statement, or at COMMIT, it is evaluated at its candidates alone, on the same forms that the crates below evaluate
//! and of which it is proved that they mean what the definitions say. docs/SCALE.md tells what is printed and why.
//!
//! What is proved here is that printing is safe and ends, and that nothing is written before all names are known to be
//! short enough. That PostgreSQL takes the SQL and answers as the program does is tested
//! (tools/against_postgresql.py).
//!
//! From the bottom up: `words` (names, constants and set functions), `conditions` (conditions and expressions), `forms`
//! (the bad roots of an assertion, and the test of one), `changed` (the rows that a statement has changed), `totals`
//! (of single conditions), `candidates`, `tables`, `rules` (what stands for an assertion), `triggers` (what stands for
//! a table) and `fixed` (what is the same for all).
#![tactic(auto)]

ghost use Rattle.std.specs.Prelude.{◌≡◌, true, false, IfErr};
ghost use Rattle.postgresql.specs.Faults.{is_before_writing};

mod candidates;
mod changed;
mod conditions;
mod faults;
mod fixed;
mod forms;
mod rules;
mod tables;
mod totals;
mod triggers;
mod words;

use assertion::Assertion;
use delta::View;
pub use faults::PrintFault;
use printout::Printout;
use rules::Rule;
use std::alloc::Global;
use std::io::Write;
use table::Row;

/// Writes the SQL of tables, their rows and their assertions: one transaction, for an empty schema.
///
/// # Errors
///
/// [`PrintFault::LongName`] where a table, a column or an assertion has a name that PostgreSQL would cut; nothing is
/// written then. [`PrintFault::NoMemory`] where no memory is left, and [`PrintFault::Output`] at the first fault of the
/// writer; after both a part may be written.
#[tactic(auto, using(crate::proofs::Late::nothing_before))]
pub fn print_into<W: Write>(alloc: Global, view: &View, out: &mut W) -> Result<(), PrintFault>
    ensures nothing { IfErr result (λ fault. is_before_writing fault ≡ true → out.new ≡ out.old) }
{
    tables::require_short_names(view)?;
    print_all(alloc, view, out)
}

/// Writes all of it.
fn print_all<W: Write>(alloc: Global, view: &View, out: &mut W) -> Result<(), PrintFault>
    ensures late { IfErr result (λ fault. is_before_writing fault ≡ false) }
{
    let mut sql = Printout::new(alloc);
    sql.add(fixed::HEAD);
    for table in 0..view.catalog().len() {
        print_table(&mut sql, view, table, out)?;
    }
    add_rules(&mut sql, view);
    sql.finish_into(out)?;
    Ok(())
}

/// Writes a table and its rows.
fn print_table<W: Write>(
    sql: &mut Printout,
    view: &View,
    table: usize,
    out: &mut W,
) -> Result<(), PrintFault>
    ensures late { IfErr result (λ fault. is_before_writing fault ≡ false) }
{
    tables::add_table(sql, view, table);
    if table < view.catalog().len() {
        for row in view.rows(table).iter() {
            print_row(sql, view, table, row, out)?;
        }
    }
    tables::add_indexes(sql, view, table);
    sql.write_into(out)?;
    Ok(())
}

fn print_row<W: Write>(
    sql: &mut Printout,
    view: &View,
    table: usize,
    row: &Row,
    out: &mut W,
) -> Result<(), PrintFault>
    ensures late { IfErr result (λ fault. is_before_writing fault ≡ false) }
{
    tables::add_row(sql, view, table, row);
    sql.write_into(out)?;
    Ok(())
}

/// Adds all that keeps the rules.
fn add_rules(sql: &mut Printout, view: &View) {
    sql.add(fixed::HELPERS);
    if can_defer(view.assertions()) {
        sql.add(fixed::CALLS);
    }
    for (place, assertion) in view.assertions().iter().enumerate() {
        rules::add_rule(sql, view, Rule::at(place, assertion));
    }
    for table in 0..view.catalog().len() {
        triggers::add_triggers(sql, view, table);
    }
    rules::add_verdicts(sql, view);
    sql.add(fixed::END);
}

/// Whether one of these assertions is deferrable.
fn can_defer(assertions: &[Assertion]) -> bool {
    assertions
        .iter()
        .any(|assertion| assertion.attributes.deferrable)
}
