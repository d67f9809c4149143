//! What an assertion costs: what is maintained for it, what a check of it reads, and how many rows and groups there
//! are.
//!
//! All of it is taken from the resolved form (`assertion::Form`) and from the rows of a view. A form has a total for
//! each query or set function in its condition (`roots`), and one of COUNT(*) where a HAVING has none. A query whose
//! WHERE looks at the row around it has one for each such row, or none where it is linked by its own key.

use crate::columns::{WhichRow, add_column, add_columns, add_condition};
use crate::pairs::count_pairs;
use assertion::{Form, Link, Query, Whole};
use changes::{TableFilter, filtered_rows};
use delta::View;
use std::alloc::{AllocError, Global};
use table::{Aggregate, Cond, Row, is_bounded};
use value::Value;

/// How the rows of a table go into groups.
#[derive(Clone, Copy)]
pub enum Grouping {
    /// All are one group.
    Whole,
    /// By a column; NULL is a group like another.
    By(usize),
    /// By a column that holds the key of a row; NULL is no group.
    Linked(Link),
}

impl Grouping {
    /// The column, where there is one.
    pub fn column(self) -> Option<usize> {
        match self {
            Grouping::Whole => None,
            Grouping::By(column) => Some(column),
            Grouping::Linked(link) => Some(link.inner),
        }
    }
}

/// The rows of a table that a WHERE keeps, in groups.
#[derive(Clone, Copy)]
struct Selection<'a> {
    table: usize,
    filter: &'a Cond,
    grouping: Grouping,
}

impl<'a> Selection<'a> {
    /// The rows of a query that is linked to a row around it.
    fn linked(query: &'a Query<Link>) -> Selection<'a> {
        Selection {
            table: query.table,
            filter: &query.filter,
            grouping: Grouping::Linked(query.grouping),
        }
    }
}

/// How many rows a WHERE keeps that go to a group, and how many groups they make.
#[derive(Clone, Copy)]
pub struct Counts {
    pub rows: usize,
    pub groups: usize,
}

/// For what a total of a set function is maintained.
#[derive(Clone, Copy, PartialEq, Eq)]
pub enum Upkeep {
    /// For each group of the rows that its WHERE keeps.
    Groups,
    /// For each row around, of the linked rows that its WHERE keeps beside that row.
    RowsAround,
    /// For nothing: the one row that can be linked is looked up by its key for each row around.
    Nothing,
}

/// A set function, and what is maintained of the rows that a WHERE keeps.
#[derive(Drop)]
pub struct MaintainedFunction {
    pub function: Aggregate,
    pub table: usize,
    pub grouping: Grouping,
    pub upkeep: Upkeep,
    /// The columns that its WHERE looks at.
    pub filter: Vec<usize>,
    /// Those of the row around that it looks at. Without one the totals are those of groups.
    pub beside: Vec<usize>,
    /// Where it looks at the row around, of the pairs of a row around and a row that is kept beside it.
    pub counts: Counts,
}

impl MaintainedFunction {
    /// Of rows of which nothing is maintained.
    fn new(alloc: Global, rows: Selection, function: Aggregate) -> MaintainedFunction {
        MaintainedFunction {
            function,
            table: rows.table,
            grouping: rows.grouping,
            upkeep: Upkeep::Nothing,
            filter: Vec::new(alloc),
            beside: Vec::new(alloc),
            counts: Counts { rows: 0, groups: 0 },
        }
    }
}

/// What a check of one root reads: of a table all rows, those with one value in a column, or the row under a key.
#[derive(Drop)]
pub struct Reading {
    pub table: usize,
    /// The column whose value the rows share.
    pub by: Option<usize>,
    /// The columns that are looked at, in their order.
    pub columns: Vec<usize>,
}

/// The figures of an assertion.
#[derive(Drop)]
pub struct Figures {
    /// Of the rows that its outer query goes over; of a single condition, of the rows of its queries.
    pub counts: Counts,
    pub kept: Vec<MaintainedFunction>,
    pub readings: Vec<Reading>,
}

impl Figures {
    /// Of no assertion yet.
    pub fn new(alloc: Global) -> Figures {
        Figures {
            counts: Counts { rows: 0, groups: 0 },
            kept: Vec::new(alloc),
            readings: Vec::new(alloc),
        }
    }
}

/// Puts in the figures of an assertion of this form on the rows of a view.
pub fn put_figures(
    alloc: Global,
    view: &View,
    form: &Form,
    figures: &mut Figures,
) -> Result<(), AllocError> {
    match form {
        Form::ByRow {
            table,
            condition,
            queries,
        } => {
            let rule = RowRule {
                table: *table,
                condition,
                queries: queries.as_slice(),
            };
            by_row(alloc, view, rule, figures)
        }
        Form::ByGroup {
            table,
            filter,
            group,
            aggregates,
            ..
        } => {
            let groups = Selection {
                table: *table,
                filter,
                grouping: Grouping::By(*group),
            };
            by_group(alloc, view, groups, aggregates.as_slice(), figures)
        }
        Form::Single { queries, .. } => single(alloc, view, queries.as_slice(), figures),
    }
}

/// A rule by rows of a table: its condition, and the queries in it.
#[derive(Clone, Copy)]
struct RowRule<'a> {
    table: usize,
    condition: &'a Cond,
    queries: &'a [Query<Link>],
}

fn by_row(
    alloc: Global,
    view: &View,
    rule: RowRule,
    figures: &mut Figures,
) -> Result<(), AllocError> {
    let rows = row_count(view, rule.table);
    figures.counts = Counts { rows, groups: rows };
    let key = view.key_column(rule.table);
    let mut columns = Vec::new(alloc);
    add_column(&mut columns, key)?;
    add_row_columns(rule, &mut columns)?;
    put_reading(
        alloc,
        rule.table,
        Some(key),
        &columns,
        &mut figures.readings,
    )?;
    put_linked(alloc, view, rule, figures)
}

/// Puts the columns of a row that a rule by rows looks at among others.
fn add_row_columns(rule: RowRule, columns: &mut Vec<usize>) -> Result<(), AllocError> {
    add_condition(columns, rule.condition, WhichRow::Own)?;
    for query in rule.queries {
        add_column(columns, query.grouping.outer)?;
        add_condition(columns, &query.filter, WhichRow::Around)?;
    }
    Ok(())
}

/// Puts what is maintained of the queries of a rule by rows behind the others.
fn put_linked(
    alloc: Global,
    view: &View,
    rule: RowRule,
    figures: &mut Figures,
) -> Result<(), AllocError> {
    for query in rule.queries {
        if query.filter.has_slots() {
            put_beside(alloc, view, rule.table, query, figures)?;
        } else {
            put_total(
                alloc,
                view,
                Selection::linked(query),
                query.aggregate,
                figures,
            )?;
        }
    }
    Ok(())
}

/// Puts what is maintained of a query that looks at the row around it behind the others.
fn put_beside(
    alloc: Global,
    view: &View,
    around: usize,
    query: &Query<Link>,
    figures: &mut Figures,
) -> Result<(), AllocError> {
    let mut kept = MaintainedFunction::new(alloc, Selection::linked(query), query.aggregate);
    kept.counts = count_pairs(alloc, view, around, query)?;
    if query.grouping.inner != view.key_column(query.table) {
        kept.upkeep = Upkeep::RowsAround;
    }
    add_condition(&mut kept.beside, &query.filter, WhichRow::Around)?;
    put_kept(alloc, &query.filter, kept, figures)
}

fn by_group(
    alloc: Global,
    view: &View,
    groups: Selection,
    aggregates: &[Aggregate],
    figures: &mut Figures,
) -> Result<(), AllocError> {
    figures.counts = count(alloc, view, groups)?;
    if aggregates.is_empty() {
        return put_total(alloc, view, groups, Aggregate::CountRows, figures);
    }
    for aggregate in aggregates {
        put_total(alloc, view, groups, *aggregate, figures)?;
    }
    Ok(())
}

fn single(
    alloc: Global,
    view: &View,
    queries: &[Query<Whole>],
    figures: &mut Figures,
) -> Result<(), AllocError> {
    for query in queries {
        let rows = Selection {
            table: query.table,
            filter: &query.filter,
            grouping: Grouping::Whole,
        };
        put_total(alloc, view, rows, query.aggregate, figures)?;
    }
    for kept in &figures.kept {
        figures.counts.rows = figures.counts.rows.saturating_add(kept.counts.rows);
    }
    figures.counts.groups = 1;
    Ok(())
}

/// Puts the totals of groups of rows behind the others, and what is read for them.
fn put_total(
    alloc: Global,
    view: &View,
    rows: Selection,
    function: Aggregate,
    figures: &mut Figures,
) -> Result<(), AllocError> {
    let mut kept = MaintainedFunction::new(alloc, rows, function);
    kept.upkeep = Upkeep::Groups;
    kept.counts = count(alloc, view, rows)?;
    put_kept(alloc, rows.filter, kept, figures)
}

/// Puts a set function behind the others, with the columns that its WHERE looks at, and what is read for it.
fn put_kept(
    alloc: Global,
    filter: &Cond,
    kept: MaintainedFunction,
    figures: &mut Figures,
) -> Result<(), AllocError> {
    let mut kept = kept;
    add_condition(&mut kept.filter, filter, WhichRow::Own)?;
    put_reading_of(alloc, &kept, &mut figures.readings)?;
    figures.kept.push(kept)?;
    Ok(())
}

/// Puts what is read for a set function behind the others, or into that of the same rows.
fn put_reading_of(
    alloc: Global,
    kept: &MaintainedFunction,
    readings: &mut Vec<Reading>,
) -> Result<(), AllocError> {
    let mut columns = Vec::from_slice(alloc, &kept.filter)?;
    if let Some(column) = kept.grouping.column() {
        add_column(&mut columns, column)?;
    }
    if let Some(column) = kept.function.column() {
        add_column(&mut columns, column)?;
    }
    put_reading(
        alloc,
        kept.table,
        kept.grouping.column(),
        &columns,
        readings,
    )
}

/// Puts what is read behind the others, or into that of the same rows.
fn put_reading(
    alloc: Global,
    table: usize,
    by: Option<usize>,
    columns: &[usize],
    readings: &mut Vec<Reading>,
) -> Result<(), AllocError> {
    for reading in readings.iter_mut() {
        if reading.table == table && reading.by == by {
            return add_columns(&mut reading.columns, columns);
        }
    }
    readings.push(Reading {
        table,
        by,
        columns: Vec::from_slice(alloc, columns)?,
    })?;
    Ok(())
}

/// How many rows a table has.
pub fn row_count(view: &View, table: usize) -> usize {
    if table < view.catalog().len() {
        view.rows(table).len()
    } else {
        0
    }
}

/// How many rows of a table a WHERE keeps that go to a group, and how many groups they make.
fn count(alloc: Global, view: &View, rows: Selection) -> Result<Counts, AllocError> {
    let Some(column) = rows.grouping.column() else {
        let rows = rows_of(alloc, view, rows)?.len();
        return Ok(Counts {
            rows,
            groups: rows.min(1),
        });
    };
    let is_link = matches!(rows.grouping, Grouping::Linked(_));
    let kept = rows_of(alloc, view, rows)?;
    let mut values = Vec::new(alloc);
    for row in &kept {
        if let Some(value) = group_of(is_link, column, row) {
            values.push(value)?;
        }
    }
    values.sort_unstable();
    Ok(Counts {
        rows: values.len(),
        groups: distinct(&values),
    })
}

/// The rows of a table that a WHERE keeps.
fn rows_of<'a>(
    alloc: Global,
    view: &'a View,
    rows: Selection<'a>,
) -> Result<Vec<&'a Row>, AllocError> {
    let mut kept = Vec::new(alloc);
    if rows.table >= view.catalog().len() || !is_bounded(rows.filter, &[]) {
        return Ok(kept);
    }
    let filter = TableFilter::new(rows.table, view.key_column(rows.table), rows.filter)?;
    for row in filtered_rows(alloc, view.rows(rows.table), &filter) {
        kept.push(row)?;
    }
    Ok(kept)
}

/// The group of a row by the grouping column, if it goes to one.
fn group_of(is_link: bool, column: usize, row: &Row) -> Option<&Value> {
    match row.values().get(column) {
        Some(Value::Null) if is_link => None,
        value => value,
    }
}

/// How many items there are in a list in order, each counted once.
pub fn distinct<T: PartialEq>(items: &[&T]) -> usize {
    let mut count = 0usize;
    let mut last: Option<&T> = None;
    for item in items {
        if last != Some(*item) {
            count = count.saturating_add(1);
        }
        last = Some(*item);
    }
    count
}
