//! The roots at which changed rows can turn an assertion.
//!
//! They are those of the law of candidates: by rows the key of a changed row of the table, and the rows to which a
//! subquery's link leads from a changed row of its own table; by groups the group of a changed row; the whole of a
//! single condition. A changed row that the filter of a subquery or of the groups does not keep turns nothing there,
//! before as after, so its root is left out.

use crate::changed::ChangedRows;
use crate::forms::{add_column_of, add_filter, add_key_of, add_linked_filter, add_source};
use assertion::{Form, Link, Query, Whole};
use printout::Printout;
use table::Cond;

/// Whether an assertion is over a table.
pub fn is_over(form: &Form, table: usize) -> bool {
    match form {
        Form::ByRow {
            table: own,
            queries,
            ..
        } => *own == table || queries.as_slice().iter().any(|query| query.table == table),
        Form::ByGroup { table: own, .. } => *own == table,
        Form::Single { queries, .. } => queries.as_slice().iter().any(|query| query.table == table),
    }
}

/// Adds the query that lists the candidates of changed rows, as a column `root`.
pub fn add_candidates(sql: &mut Printout, changed: ChangedRows<'_>, form: &Form) {
    match form {
        Form::ByRow { table, queries, .. } => {
            add_row_candidates(sql, changed, *table, queries.as_slice())
        }
        Form::ByGroup { filter, group, .. } => {
            sql.add("SELECT c.");
            add_column_of(sql, changed.view, changed.table, *group);
            add_kept(sql, changed, filter);
        }
        Form::Single { queries, .. } => add_whole_candidates(sql, changed, queries.as_slice()),
    }
}

/// Adds, behind a root, which of the changed rows have one: those that a filter keeps.
fn add_kept(sql: &mut Printout, changed: ChangedRows<'_>, filter: &Cond) {
    sql.add_all(&[" AS root FROM ", changed.rows, " AS c WHERE "]);
    add_filter(sql, changed.view, changed.table, "c", filter);
}

/// Adds what joins the candidates of a subquery to those before it, if there are some.
fn add_union(sql: &mut Printout, is_first: bool) {
    if !is_first {
        sql.add("\n        UNION ALL ");
    }
}

/// Adds those of a rule by rows of a table of its own.
fn add_row_candidates(
    sql: &mut Printout,
    changed: ChangedRows<'_>,
    own: usize,
    queries: &[Query<Link>],
) {
    let mut is_first = own != changed.table;
    if own == changed.table {
        sql.add("SELECT c.");
        add_key_of(sql, changed.view, own);
        sql.add_all(&[" AS root FROM ", changed.rows, " AS c"]);
    }
    for query in queries {
        if query.table == changed.table {
            add_union(sql, is_first);
            add_linked_candidates(sql, changed, own, query);
            is_first = false;
        }
    }
}

/// Adds the candidates of a subquery over the table.
fn add_linked_candidates(
    sql: &mut Printout,
    changed: ChangedRows<'_>,
    own: usize,
    query: &Query<Link>,
) {
    if query.grouping.outer == changed.view.key_column(own) && !query.filter.has_slots() {
        add_key_candidates(sql, changed, query);
    } else {
        add_column_candidates(sql, changed, own, query);
    }
}

/// Where the link is to the key, the changed row has it, and the filter asks nothing else of the row around. NULL is
/// linked to no key.
fn add_key_candidates(sql: &mut Printout, changed: ChangedRows<'_>, query: &Query<Link>) {
    let (view, inner) = (changed.view, query.grouping.inner);
    sql.add("SELECT c.");
    add_column_of(sql, view, query.table, inner);
    sql.add_all(&[" AS root FROM ", changed.rows, " AS c WHERE c."]);
    add_column_of(sql, view, query.table, inner);
    sql.add(" IS NOT NULL AND ");
    add_filter(sql, view, query.table, "c", &query.filter);
}

/// Else the rows that have the value there, and that the filter takes beside the changed row.
fn add_column_candidates(
    sql: &mut Printout,
    changed: ChangedRows<'_>,
    own: usize,
    query: &Query<Link>,
) {
    let view = changed.view;
    sql.add("SELECT r.");
    add_key_of(sql, view, own);
    sql.add(" AS root ");
    add_source(sql, view, own, "r");
    sql.add_all(&[", ", changed.rows, " AS c WHERE r."]);
    add_column_of(sql, view, own, query.grouping.outer);
    sql.add(" = c.");
    add_column_of(sql, view, query.table, query.grouping.inner);
    sql.add(" AND ");
    add_linked_filter(sql, view, own, query, "c");
}

/// Adds those of a single condition.
fn add_whole_candidates(sql: &mut Printout, changed: ChangedRows<'_>, queries: &[Query<Whole>]) {
    let mut is_first = true;
    for query in queries {
        if query.table == changed.table {
            add_union(sql, is_first);
            sql.add("SELECT NULL::bigint");
            add_kept(sql, changed, &query.filter);
            is_first = false;
        }
    }
}
