//! What the SQL of an assertion is put together from: its bad roots, and whether one root is bad.
//!
//! In all of it the row of a table goes by `r`, that of a subquery by `s` and a changed row by `c`. Column names are
//! quoted and hold no lower-case letter, so no name of the function's own is ever taken for one of them.

use crate::conditions::{ColumnSlots, NoSlots, Scope, Slots, add_condition};
use crate::totals;
use crate::words::{add_column_name, add_set_function};
use assertion::{Form, Link, Query, Whole};
use delta::View;
use printout::Printout;
use table::{Aggregate, Column, Cond};
use value::ColType;

/// Of what an assertion's roots are.
#[derive(Clone, Copy, Debug, PartialEq, Eq)]
pub enum RootKind {
    Number,
    Text,
    /// The assertion is false as a whole; in tables and variables its root is NULL.
    Whole,
}

impl RootKind {
    /// The type of a root.
    pub fn type_name(self) -> &'static str {
        match self {
            RootKind::Number | RootKind::Whole => "bigint",
            RootKind::Text => "text",
        }
    }

    /// The variable that holds the least bad root.
    pub fn variable(self) -> &'static str {
        match self {
            RootKind::Number | RootKind::Whole => "least_number",
            RootKind::Text => "least_text",
        }
    }

    /// The column of the notes that holds a root.
    pub fn column(self) -> &'static str {
        match self {
            RootKind::Number | RootKind::Whole => "number",
            RootKind::Text => "word",
        }
    }
}

/// The columns of a table; none where there is no such table.
pub fn columns_of(view: &View, table: usize) -> &[Column] {
    match view.catalog().at(table) {
        Some(schema) => schema.columns(),
        None => &[],
    }
}

/// Adds the name of a column of a table.
pub fn add_column_of(sql: &mut Printout, view: &View, table: usize, place: usize) {
    add_column_name(sql, columns_of(view, table), place);
}

/// Adds the name of a table's key.
pub fn add_key_of(sql: &mut Printout, view: &View, table: usize) {
    add_column_of(sql, view, table, view.key_column(table));
}

/// Adds the name of a table.
pub fn add_table_name(sql: &mut Printout, view: &View, table: usize) {
    if let Some(name) = view.catalog().name(table) {
        sql.add_name(name);
    }
}

/// Of what the roots of a form are.
pub fn root_kind(view: &View, form: &Form) -> RootKind {
    match form {
        Form::ByRow { table, .. } => kind_of(columns_of(view, *table), view.key_column(*table)),
        Form::ByGroup { table, group, .. } => kind_of(columns_of(view, *table), *group),
        Form::Single { .. } => RootKind::Whole,
    }
}

fn kind_of(columns: &[Column], place: usize) -> RootKind {
    match columns.get(place) {
        Some(column) => match column.kind {
            ColType::Integer => RootKind::Number,
            ColType::Varchar(_) => RootKind::Text,
        },
        None => RootKind::Number,
    }
}

/// Adds a table under a name of a row: `FROM table AS row`.
pub fn add_source(sql: &mut Printout, view: &View, table: usize, row: &str) {
    sql.add("FROM ");
    add_table_name(sql, view, table);
    sql.add_all(&[" AS ", row]);
}

/// Adds a WHERE on a row of a subquery's table. What it asks of the row around is of `r`, a row of that table.
pub fn add_linked_filter(
    sql: &mut Printout,
    view: &View,
    around: usize,
    query: &Query<Link>,
    row: &str,
) {
    let slots = ColumnSlots {
        row: "r",
        columns: columns_of(view, around),
    };
    let scope = Scope {
        row,
        columns: columns_of(view, query.table),
        slots: &slots,
    };
    add_condition(sql, &scope, &query.filter);
}

/// Adds a WHERE on a row of a table, as a condition without slots.
pub fn add_filter(sql: &mut Printout, view: &View, table: usize, row: &str, filter: &Cond) {
    let scope = Scope {
        row,
        columns: columns_of(view, table),
        slots: &NoSlots,
    };
    add_condition(sql, &scope, filter);
}

/// Adds the condition of a root, over the row `r` of these columns.
fn add_test<S: Slots>(sql: &mut Printout, columns: &[Column], slots: &S, condition: &Cond) {
    let scope = Scope {
        row: "r",
        columns,
        slots,
    };
    add_condition(sql, &scope, condition);
}

/// In the slots of a condition by rows: subqueries that are linked to the row `r` of a table.
#[derive(Drop)]
struct LinkedSlots<'a> {
    view: &'a View,
    table: usize,
    queries: &'a [Query<Link>],
}

impl Slots for LinkedSlots<'_> {
    fn add_value(&self, sql: &mut Printout, slot: usize) {
        match self.queries.get(slot) {
            Some(query) => {
                add_selected(sql, self.view, query.table, query.aggregate);
                add_linked_rows(sql, self.view, self.table, query);
                sql.add(")");
            }
            None => sql.add("NULL"),
        }
    }

    fn add_exists(&self, sql: &mut Printout, slot: usize) {
        match self.queries.get(slot) {
            Some(query) => {
                sql.add("EXISTS (SELECT ");
                add_linked_rows(sql, self.view, self.table, query);
                sql.add(")");
            }
            None => sql.add("FALSE"),
        }
    }
}

/// Adds the head of a subquery, up to its table.
fn add_selected(sql: &mut Printout, view: &View, table: usize, aggregate: Aggregate) {
    sql.add("(SELECT ");
    add_set_function(sql, aggregate, "s", columns_of(view, table));
    sql.add(" ");
}

/// Adds the rows of a subquery that are linked to the row `r` of a table.
fn add_linked_rows(sql: &mut Printout, view: &View, table: usize, query: &Query<Link>) {
    add_source(sql, view, query.table, "s");
    sql.add(" WHERE s.");
    add_column_of(sql, view, query.table, query.grouping.inner);
    sql.add(" = r.");
    add_column_of(sql, view, table, query.grouping.outer);
    sql.add(" AND ");
    add_linked_filter(sql, view, table, query, "s");
}

/// In the slots of a condition over whole tables: subqueries of theirs.
#[derive(Drop)]
struct WholeSlots<'a> {
    view: &'a View,
    queries: &'a [Query<Whole>],
}

impl Slots for WholeSlots<'_> {
    fn add_value(&self, sql: &mut Printout, slot: usize) {
        match self.queries.get(slot) {
            Some(query) => {
                add_selected(sql, self.view, query.table, query.aggregate);
                add_whole_rows(sql, self.view, query);
                sql.add(")");
            }
            None => sql.add("NULL"),
        }
    }

    fn add_exists(&self, sql: &mut Printout, slot: usize) {
        match self.queries.get(slot) {
            Some(query) => {
                sql.add("EXISTS (SELECT ");
                add_whole_rows(sql, self.view, query);
                sql.add(")");
            }
            None => sql.add("FALSE"),
        }
    }
}

fn add_whole_rows(sql: &mut Printout, view: &View, query: &Query<Whole>) {
    add_source(sql, view, query.table, "s");
    sql.add(" WHERE ");
    add_filter(sql, view, query.table, "s", &query.filter);
}

/// In the slots of HAVING: set functions over the rows of a group.
#[derive(Drop)]
struct GroupSlots<'a> {
    columns: &'a [Column],
    aggregates: &'a [Aggregate],
}

impl Slots for GroupSlots<'_> {
    fn add_value(&self, sql: &mut Printout, slot: usize) {
        match self.aggregates.get(slot) {
            Some(aggregate) => add_set_function(sql, *aggregate, "r", self.columns),
            None => sql.add("NULL"),
        }
    }

    fn add_exists(&self, sql: &mut Printout, slot: usize) {
        match self.aggregates.get(slot) {
            Some(aggregate) => {
                sql.add("(");
                add_set_function(sql, *aggregate, "r", self.columns);
                sql.add(" > 0)");
            }
            None => sql.add("FALSE"),
        }
    }
}

/// The SQL of an assertion, by its form.
pub trait RuleSql {
    /// Adds the query of its bad roots from scratch, as a column `root`.
    fn add_bad_roots(&self, sql: &mut Printout);

    /// Adds the body of the test whether the root `candidate` is bad.
    fn add_is_bad(&self, sql: &mut Printout);
}

/// An assertion by rows: of a table, with its condition and the subqueries in its slots.
#[derive(Drop)]
pub struct RowRule<'a> {
    pub view: &'a View,
    pub table: usize,
    pub condition: &'a Cond,
    pub queries: &'a [Query<Link>],
}

impl RuleSql for RowRule<'_> {
    fn add_bad_roots(&self, sql: &mut Printout) {
        sql.add("SELECT r.");
        add_key_of(sql, self.view, self.table);
        sql.add(" AS root ");
        add_source(sql, self.view, self.table, "r");
        sql.add(" WHERE ");
        self.add_condition(sql);
    }

    fn add_is_bad(&self, sql: &mut Printout) {
        sql.add("    RETURN EXISTS (SELECT ");
        add_source(sql, self.view, self.table, "r");
        sql.add(" WHERE r.");
        add_key_of(sql, self.view, self.table);
        sql.add(" = candidate AND ");
        self.add_condition(sql);
        sql.add(");\n");
    }
}

impl RowRule<'_> {
    /// Adds its condition on the row `r`.
    fn add_condition(&self, sql: &mut Printout) {
        let slots = LinkedSlots {
            view: self.view,
            table: self.table,
            queries: self.queries,
        };
        let columns = columns_of(self.view, self.table);
        add_test(sql, columns, &slots, self.condition);
    }
}

/// An assertion by groups: of the rows of a table that its filter keeps, by a column, with what HAVING asks of a group.
#[derive(Drop)]
pub struct GroupRule<'a> {
    pub view: &'a View,
    pub table: usize,
    pub filter: &'a Cond,
    pub group: usize,
    pub having: &'a Cond,
    pub aggregates: &'a [Aggregate],
}

impl RuleSql for GroupRule<'_> {
    fn add_bad_roots(&self, sql: &mut Printout) {
        sql.add("SELECT r.");
        self.add_group(sql);
        sql.add(" AS root ");
        add_source(sql, self.view, self.table, "r");
        sql.add(" WHERE ");
        self.add_rest(sql);
    }

    // NULLs are one group, which an equality would not find.
    fn add_is_bad(&self, sql: &mut Printout) {
        sql.add("    IF candidate IS NULL THEN\n    ");
        self.add_found(sql, " IS NULL");
        sql.add("    END IF;\n");
        self.add_found(sql, " = candidate");
    }
}

impl GroupRule<'_> {
    /// Adds whether there is a bad group whose value is so.
    fn add_found(&self, sql: &mut Printout, test: &str) {
        sql.add("    RETURN EXISTS (SELECT ");
        add_source(sql, self.view, self.table, "r");
        sql.add(" WHERE r.");
        self.add_group(sql);
        sql.add_all(&[test, " AND "]);
        self.add_rest(sql);
        sql.add(");\n");
    }

    /// Adds the filter, the groups and what HAVING asks of them.
    fn add_rest(&self, sql: &mut Printout) {
        add_filter(sql, self.view, self.table, "r", self.filter);
        sql.add(" GROUP BY r.");
        self.add_group(sql);
        sql.add(" HAVING ");
        self.add_having(sql);
    }

    /// HAVING sees one column, the group's value.
    fn add_having(&self, sql: &mut Printout) {
        let columns = columns_of(self.view, self.table);
        let slots = GroupSlots {
            columns,
            aggregates: self.aggregates,
        };
        let seen = columns.get(self.group..).unwrap_or(&[]);
        add_test(sql, seen, &slots, self.having);
    }

    /// Adds the name of the column by which the groups are made.
    fn add_group(&self, sql: &mut Printout) {
        add_column_of(sql, self.view, self.table, self.group);
    }
}

/// A single condition, with the number of its rule and the subqueries in its slots.
#[derive(Drop)]
pub struct SingleRule<'a> {
    pub view: &'a View,
    pub rule: usize,
    pub condition: &'a Cond,
    pub queries: &'a [Query<Whole>],
}

impl RuleSql for SingleRule<'_> {
    fn add_bad_roots(&self, sql: &mut Printout) {
        sql.add("SELECT NULL::bigint AS root WHERE ");
        self.add_condition(sql);
        sql.add(" IS FALSE");
    }

    // By totals, where they are kept.
    fn add_is_bad(&self, sql: &mut Printout) {
        sql.add("    RETURN ");
        if totals::are_kept(self.queries) {
            let slots = totals::TotalSlots {
                rule: self.rule,
                queries: self.queries,
            };
            add_test(sql, &[], &slots, self.condition);
        } else {
            self.add_condition(sql);
        }
        sql.add(" IS FALSE;\n");
    }
}

impl SingleRule<'_> {
    /// Adds the condition, its set functions evaluated from scratch.
    pub fn add_condition(&self, sql: &mut Printout) {
        let slots = WholeSlots {
            view: self.view,
            queries: self.queries,
        };
        add_test(sql, &[], &slots, self.condition);
    }
}
