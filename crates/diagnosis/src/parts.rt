//! What the conditions and expressions of a text are made of, in the order in which they are read.
//!
//! Trees are walked here alone, but for their types. What looks for the first part of some kind goes over a list.

use crate::leaves::{Range, clauses_of, of_column, of_name};
use std::alloc::{AllocError, Global};
use syntax::{ColumnName, Condition, Expression, Query, SelectList};

/// What a part is. Of constants, comparisons and the words between conditions nothing is asked, so they are none.
#[derive(Clone, Copy)]
pub enum Node<'a> {
    Column(&'a ColumnName),
    /// A set function: of a column, or of rows.
    Function(Option<&'a ColumnName>),
    /// A query behind EXISTS. The parts of the query follow, and then its `End`.
    Exists(&'a Query),
    /// A query that stands for its value. Its parts follow, and then its `End`.
    Value(&'a Query),
    /// A sum or a product, behind its parts.
    Arithmetic(&'a Expression),
    /// The end of the query that began last.
    End,
}

/// A part of a condition or an expression.
#[derive(Clone, Copy)]
pub struct Part<'a> {
    pub node: Node<'a>,
    /// Its leaves.
    pub range: Range,
    /// In how many queries it stands.
    pub depth: usize,
}

impl<'a> Part<'a> {
    /// The query that it is, and where the query's own leaves begin.
    pub fn query(&self) -> Option<(&'a Query, usize)> {
        match self.node {
            Node::Exists(query) => Some((query, self.range.from.saturating_add(1))),
            Node::Value(query) => Some((query, self.range.from)),
            _ => None,
        }
    }
}

/// The parts of a condition whose leaves begin here.
pub fn parts_of_condition<'a>(
    alloc: Global,
    condition: &'a Condition,
    at: usize,
) -> Result<Vec<Part<'a>>, AllocError> {
    let mut walk = Walk::new(alloc, at);
    walk.condition(condition)?;
    Ok(walk.parts)
}

/// The parts of an expression whose leaves begin here.
pub fn parts_of_expression<'a>(
    alloc: Global,
    expression: &'a Expression,
    at: usize,
) -> Result<Vec<Part<'a>>, AllocError> {
    let mut walk = Walk::new(alloc, at);
    walk.expression(expression)?;
    Ok(walk.parts)
}

/// The names of columns whose leaves begin here.
pub fn parts_of_columns<'a>(
    alloc: Global,
    columns: &'a [ColumnName],
    at: usize,
) -> Result<Vec<Part<'a>>, AllocError> {
    let mut walk = Walk::new(alloc, at);
    for column in columns {
        walk.column(column)?;
    }
    Ok(walk.parts)
}

/// How far a tree was walked: the parts that were come to, the leaf that is next, and in how many queries it stands.
#[derive(Drop)]
struct Walk<'a> {
    parts: Vec<Part<'a>>,
    at: usize,
    depth: usize,
}

impl<'a> Walk<'a> {
    fn new(alloc: Global, at: usize) -> Walk<'a> {
        Walk {
            parts: Vec::new(alloc),
            at,
            depth: 0,
        }
    }

    /// Goes past leaves.
    fn pass(&mut self, count: usize) {
        self.at = self.at.saturating_add(count);
    }

    fn push(&mut self, node: Node<'a>, range: Range) -> Result<(), AllocError> {
        self.parts.push(Part {
            node,
            range,
            depth: self.depth,
        })?;
        Ok(())
    }

    /// Puts a part of so many leaves behind the others, and goes past them.
    fn push_leaves(&mut self, node: Node<'a>, count: usize) -> Result<(), AllocError> {
        self.push(node, Range::new(self.at, count))?;
        self.pass(count);
        Ok(())
    }

    fn column(&mut self, column: &'a ColumnName) -> Result<(), AllocError> {
        self.push_leaves(Node::Column(column), of_column(column))
    }

    #[cycle(walk)]
    fn condition(&mut self, condition: &'a Condition) -> Result<(), AllocError> {
        match condition {
            Condition::Or(parts) | Condition::And(parts) => {
                for part in parts.as_slice() {
                    self.condition(part)?;
                }
                Ok(())
            }
            Condition::Not(part) | Condition::Is(part, _) => self.condition(part.get()),
            Condition::Exists(query) => {
                let from = self.at;
                self.pass(1);
                self.query(Node::Exists(query.get()), query.get(), from)
            }
            Condition::Compare(left, _, right) => {
                self.expression(left)?;
                self.pass(1);
                self.expression(right)
            }
            Condition::IsNull(part) => self.expression(part),
            Condition::Between(subject, low, high) => {
                self.expression(subject)?;
                self.expression(low)?;
                self.expression(high)
            }
            Condition::In(subject, values) => {
                self.expression(subject)?;
                for value in values.as_slice() {
                    self.expression(value)?;
                }
                Ok(())
            }
        }
    }

    #[cycle(walk)]
    fn expression(&mut self, expression: &'a Expression) -> Result<(), AllocError> {
        match expression {
            Expression::Number(_) | Expression::Text(_) => {
                self.pass(1);
                Ok(())
            }
            Expression::Column(column) => self.column(column),
            Expression::CountRows => self.push_leaves(Node::Function(None), 1),
            Expression::Aggregate(_, argument) => {
                let count = of_column(&argument.column).saturating_add(1);
                self.push_leaves(Node::Function(Some(&argument.column)), count)
            }
            Expression::Subquery(query) => {
                let from = self.at;
                self.query(Node::Value(query.get()), query.get(), from)
            }
            Expression::Negation(part) => self.expression(part.get()),
            Expression::Sum(parts) | Expression::Product(parts) => {
                let from = self.at;
                for part in parts.as_slice() {
                    self.expression(part)?;
                }
                let to = self.at;
                self.push(Node::Arithmetic(expression), Range { from, to })
            }
        }
    }

    /// A query, whose leaves begin at the next, and the word before them at `from`.
    #[cycle(walk)]
    fn query(&mut self, node: Node<'a>, query: &'a Query, from: usize) -> Result<(), AllocError> {
        let to = clauses_of(query, self.at).end;
        self.push(node, Range { from, to })?;
        self.depth = self.depth.saturating_add(1);
        self.pass(1);
        if let SelectList::One(listed) = &query.select_list {
            self.expression(listed)?;
        }
        self.pass(of_name(&query.correlation_name).saturating_add(1));
        if let Some(keeps) = &query.keeps {
            self.condition(keeps)?;
        }
        if let Some(group) = &query.group {
            self.column(group)?;
        }
        if let Some(having) = &query.having {
            self.condition(having)?;
        }
        self.depth = self.depth.saturating_sub(1);
        self.push_leaves(Node::End, 0)
    }
}
