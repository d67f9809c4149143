//! How many leaves the trees of conditions, expressions and queries have, in the order of their texts.

use syntax::{ColumnName, Condition, Expression, Query, SelectList};
use value::Text;

/// The leaves of a condition.
#[cycle(leaves)]
pub fn of_condition(condition: &Condition) -> usize {
    match condition {
        Condition::Or(parts) | Condition::And(parts) => {
            let mut count = 0usize;
            for part in parts.as_slice() {
                count = count.saturating_add(of_condition(part));
            }
            count
        }
        Condition::Not(part) | Condition::Is(part, _) => of_condition(part.get()),
        Condition::Exists(query) => of_query(query.get()).saturating_add(1),
        Condition::Compare(left, _, right) => of_expression(left)
            .saturating_add(of_expression(right))
            .saturating_add(1),
        Condition::IsNull(part) => of_expression(part),
        Condition::Between(subject, low, high) => of_expression(subject)
            .saturating_add(of_expression(low))
            .saturating_add(of_expression(high)),
        Condition::In(subject, values) => {
            let mut count = of_expression(subject);
            for value in values.as_slice() {
                count = count.saturating_add(of_expression(value));
            }
            count
        }
    }
}

/// The leaves of an expression.
#[cycle(leaves)]
pub fn of_expression(expression: &Expression) -> usize {
    match expression {
        Expression::Number(_) | Expression::Text(_) | Expression::CountRows => 1,
        Expression::Column(column) => of_column(column),
        Expression::Aggregate(_, argument) => of_column(&argument.column).saturating_add(1),
        Expression::Subquery(query) => of_query(query.get()),
        Expression::Negation(part) => of_expression(part.get()),
        Expression::Sum(parts) | Expression::Product(parts) => {
            let mut count = 0usize;
            for part in parts.as_slice() {
                count = count.saturating_add(of_expression(part));
            }
            count
        }
    }
}

/// The leaves of a query: SELECT, what it lists, its table and the name that it goes by, and those of its clauses.
#[cycle(leaves)]
pub fn of_query(query: &Query) -> usize {
    clauses_of(query, 0).end
}

/// The leaves of a column's name: its qualifier too, where one is written.
pub fn of_column(column: &ColumnName) -> usize {
    match &column.qualifier {
        Some(_) => 2,
        None => 1,
    }
}

/// The leaves of a name that may be left out.
pub fn of_name(name: &Option<Text>) -> usize {
    match name {
        Some(_) => 1,
        None => 0,
    }
}

fn of_group(group: &Option<ColumnName>) -> usize {
    match group {
        Some(column) => of_column(column),
        None => 0,
    }
}

/// Leaves of a text, from one place up to another.
#[derive(Clone, Copy)]
pub struct Range {
    pub from: usize,
    pub to: usize,
}

impl Range {
    /// So many leaves from a place on.
    pub fn new(from: usize, count: usize) -> Range {
        Range {
            from,
            to: from.saturating_add(count),
        }
    }

    /// The leaves of an expression that begin here.
    pub fn of(expression: &Expression, at: usize) -> Range {
        Range::new(at, of_expression(expression))
    }
}

/// Where the leaves of the clauses of a query begin, and where they end.
#[derive(Clone, Copy)]
pub struct Clauses {
    pub listed: usize,
    pub table: usize,
    pub keeps: usize,
    pub group: usize,
    pub having: usize,
    pub end: usize,
}

/// Where the leaves of the clauses of a query begin, if its own begin here.
#[cycle(leaves)]
pub fn clauses_of(query: &Query, at: usize) -> Clauses {
    let listed = at.saturating_add(1);
    let table = listed.saturating_add(match &query.select_list {
        SelectList::Star => 0,
        SelectList::One(listed) => of_expression(listed),
    });
    let keeps = table
        .saturating_add(of_name(&query.correlation_name))
        .saturating_add(1);
    let group = keeps.saturating_add(match &query.keeps {
        Some(keeps) => of_condition(keeps),
        None => 0,
    });
    let having = group.saturating_add(of_group(&query.group));
    let end = having.saturating_add(match &query.having {
        Some(having) => of_condition(having),
        None => 0,
    });
    Clauses {
        listed,
        table,
        keeps,
        group,
        having,
        end,
    }
}
