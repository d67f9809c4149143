//! Totals of single conditions, kept in a table of one row.
//!
//! A single condition is over whole tables. Where its set functions are COUNT and SUM alone, what they count and add
//! is kept in a table of one row, to which each statement adds what it has changed, so that a check reads one row.
//! Two transactions that both change it meet there, and the second is refused with 40001. They would be refused by a
//! check of aggregates too: each would have read what the other one changes. MIN and MAX, and COUNT and SUM of each
//! value once, are of what is left after a DELETE known from no total, so a condition over one of them is checked by
//! its aggregates.

use crate::changed::ChangedRows;
use crate::conditions::Slots;
use crate::forms::{add_column_of, add_filter, add_source};
use assertion::{Query, Whole};
use delta::View;
use printout::Printout;
use table::Aggregate;

/// Why totals are kept of a rule.
pub const WHY_KEPT: &str = "single, checked by totals in a table of one row.
-- Two transactions that both change them meet there. By aggregates they would be refused too, since each would have
-- read all that the other one changes; and each check would read the tables whole.
";

/// Why no totals are kept of a rule.
pub const WHY_NOT_KEPT: &str = "single, checked by aggregates over the tables whole.
-- MIN, MAX and DISTINCT of what is left after a DELETE are known from no total.
";

/// Whether totals are kept of these subqueries: each is of COUNT or of SUM, and of each value as often as it stands.
pub fn are_kept(queries: &[Query<Whole>]) -> bool {
    queries.iter().all(|query| is_counted(query.aggregate))
}

fn is_counted(aggregate: Aggregate) -> bool {
    match aggregate {
        Aggregate::CountRows | Aggregate::Count(_) | Aggregate::Sum(_) => true,
        Aggregate::CountDistinct(_)
        | Aggregate::SumDistinct(_)
        | Aggregate::Min(_)
        | Aggregate::Max(_) => false,
    }
}

/// In the slots of a single condition: what the totals of its rule say.
#[derive(Drop)]
pub struct TotalSlots<'a> {
    pub rule: usize,
    pub queries: &'a [Query<Whole>],
}

impl Slots for TotalSlots<'_> {
    fn add_value(&self, sql: &mut Printout, slot: usize) {
        let Some(query) = self.queries.get(slot) else {
            return sql.add("NULL");
        };
        sql.add("(SELECT ");
        add_total(sql, slot, query.aggregate);
        add_row(sql, self.rule);
        sql.add(")");
    }

    fn add_exists(&self, sql: &mut Printout, slot: usize) {
        if slot >= self.queries.len() {
            return sql.add("FALSE");
        }
        sql.add("EXISTS (SELECT");
        add_row(sql, self.rule);
        sql.add(" WHERE t.count_");
        sql.show(slot);
        sql.add(" > 0)");
    }
}

/// Adds what a set function gives, from its totals. A SUM of no value is NULL.
fn add_total(sql: &mut Printout, place: usize, aggregate: Aggregate) {
    match aggregate {
        Aggregate::Sum(_) => {
            sql.add("CASE WHEN t.count_");
            sql.show(place);
            sql.add(" > 0 THEN t.sum_");
            sql.show(place);
            sql.add(" END");
        }
        _ => {
            sql.add("t.count_");
            sql.show(place);
        }
    }
}

/// Adds the row of a rule's totals, which goes by `t`.
fn add_row(sql: &mut Printout, rule: usize) {
    sql.add(" FROM skewguard_totals_");
    sql.show(rule);
    sql.add(" AS t");
}

/// Adds the table of a rule's totals, with its one row.
pub fn add_table(sql: &mut Printout, view: &View, rule: usize, queries: &[Query<Whole>]) {
    sql.add("CREATE TABLE skewguard_totals_");
    sql.show(rule);
    sql.add(" AS SELECT\n");
    let mut before = "    ";
    for (place, query) in queries.iter().enumerate() {
        sql.add(before);
        add_column(sql, view, place, query);
        before = ",\n    ";
    }
    sql.add(";\n");
}

/// Adds a count and a sum from scratch. A SUM counts its values, since it is NULL where there is none.
fn add_column(sql: &mut Printout, view: &View, place: usize, query: &Query<Whole>) {
    sql.add("(SELECT count(*) ");
    add_kept(sql, view, query, "s");
    sql.add(") AS count_");
    sql.show(place);
    sql.add(", (SELECT COALESCE(sum(");
    add_amount(sql, view, query, "s");
    sql.add("), 0) ");
    add_kept(sql, view, query, "s");
    sql.add(") AS sum_");
    sql.show(place);
}

/// Adds the table of a subquery, and the WHERE of the rows that its set function counts.
fn add_kept(sql: &mut Printout, view: &View, query: &Query<Whole>, row: &str) {
    add_source(sql, view, query.table, row);
    sql.add(" WHERE ");
    add_counted(sql, view, query, row);
}

/// Adds the test whether a set function counts a row: its WHERE keeps it, and its column is not NULL.
fn add_counted(sql: &mut Printout, view: &View, query: &Query<Whole>, row: &str) {
    add_filter(sql, view, query.table, row, &query.filter);
    if let Some(column) = query.aggregate.column() {
        sql.add_all(&[" AND ", row, "."]);
        add_column_of(sql, view, query.table, column);
        sql.add(" IS NOT NULL");
    }
}

/// Adds what a set function adds for a row: nothing but for SUM.
fn add_amount(sql: &mut Printout, view: &View, query: &Query<Whole>, row: &str) {
    match query.aggregate {
        Aggregate::Sum(column) => {
            sql.add_all(&[row, "."]);
            add_column_of(sql, view, query.table, column);
        }
        _ => sql.add("0"),
    }
    sql.add("::numeric");
}

/// Adds the statement that adds to a rule's totals what a statement has changed in a table. What changes nothing of
/// them does not touch their row.
pub fn add_change(
    sql: &mut Printout,
    changed: ChangedRows<'_>,
    rule: usize,
    queries: &[Query<Whole>],
) {
    sql.add("    UPDATE skewguard_totals_");
    sql.show(rule);
    sql.add(" AS t SET\n");
    add_new_totals(sql, changed.table, queries);
    sql.add("\n    FROM (SELECT\n");
    add_differences(sql, changed.view, changed.table, queries);
    sql.add_all(&["\n        FROM ", changed.signed, " AS c) AS d\n"]);
    add_touched(sql, changed.table, queries);
}

/// Adds, for each set function over a table, its totals with what is added to them.
fn add_new_totals(sql: &mut Printout, table: usize, queries: &[Query<Whole>]) {
    let mut before = "        ";
    for (place, query) in queries.iter().enumerate() {
        if query.table == table {
            sql.add(before);
            add_new_total(sql, "count_", place);
            sql.add(", ");
            add_new_total(sql, "sum_", place);
            before = ",\n        ";
        }
    }
}

fn add_new_total(sql: &mut Printout, column: &str, place: usize) {
    sql.add(column);
    sql.show(place);
    sql.add_all(&[" = t.", column]);
    sql.show(place);
    sql.add_all(&[" + d.", column]);
    sql.show(place);
}

/// Adds, for each set function over a table, what the changed rows add to it.
fn add_differences(sql: &mut Printout, view: &View, table: usize, queries: &[Query<Whole>]) {
    let mut before = "        ";
    for (place, query) in queries.iter().enumerate() {
        if query.table == table {
            sql.add(before);
            add_difference(sql, view, place, query);
            before = ",\n        ";
        }
    }
}

fn add_difference(sql: &mut Printout, view: &View, place: usize, query: &Query<Whole>) {
    sql.add("COALESCE(sum(c.sign) FILTER (WHERE ");
    add_counted(sql, view, query, "c");
    sql.add("), 0) AS count_");
    sql.show(place);
    sql.add(", COALESCE(sum(c.sign * ");
    add_amount(sql, view, query, "c");
    sql.add(") FILTER (WHERE ");
    add_counted(sql, view, query, "c");
    sql.add("), 0) AS sum_");
    sql.show(place);
}

/// Adds the test whether a difference is other than nothing.
fn add_touched(sql: &mut Printout, table: usize, queries: &[Query<Whole>]) {
    let mut before = "    WHERE ";
    for (place, query) in queries.iter().enumerate() {
        if query.table == table {
            sql.add_all(&[before, "d.count_"]);
            sql.show(place);
            sql.add(" <> 0 OR d.sum_");
            sql.show(place);
            sql.add(" <> 0");
            before = " OR ";
        }
    }
    sql.add(";\n");
}
