//! The trees of conditions, expressions and queries.

use sqlite_items::{Boxed, Items};
use value::{Comparison, Text, Truth};

/// A set function of SQL-92.
#[derive(Clone, Copy, Debug, PartialEq, Eq)]
pub enum Aggregate {
    Count,
    Sum,
    Min,
    Max,
}

/// The name of a column, with its qualifier where one is written.
#[derive(Drop)]
pub struct ColumnName {
    pub qualifier: Option<Text>,
    pub name: Text,
}

/// What a set function does with values that stand several times, the standard's set quantifier (6.5).
#[derive(Clone, Copy, Debug, PartialEq, Eq)]
pub enum SetQuantifier {
    /// Each is taken as often as it stands. So it is where none is written.
    All,
    /// Each is taken once.
    Distinct,
}

/// What a set function is of: `[ALL | DISTINCT] column`.
#[derive(Drop)]
pub struct Argument {
    pub quantifier: SetQuantifier,
    pub column: ColumnName,
}

/// An expression. A sum and a product have two parts or more, and no part of a product is a
/// product; a sum among the parts of a sum stands under a negation.
#[derive(Drop)]
#[cycle(tree)]
pub enum Expression {
    /// A number, with the minus that may stand before it.
    Number(i64),
    Text(Text),
    Column(ColumnName),
    /// `COUNT(*)`.
    CountRows,
    Aggregate(Aggregate, Argument),
    /// A query that stands for its one value.
    Subquery(Boxed<Query>),
    Negation(Boxed<Expression>),
    Sum(Items<Expression>),
    Product(Items<Expression>),
}

/// A condition. An OR and an AND have two parts or more, and none of the same kind.
#[derive(Drop)]
#[cycle(tree)]
pub enum Condition {
    Or(Items<Condition>),
    And(Items<Condition>),
    Not(Boxed<Condition>),
    /// `.. IS TRUE`, `IS FALSE` or `IS UNKNOWN`.
    Is(Boxed<Condition>, Truth),
    Exists(Boxed<Query>),
    Compare(Expression, Comparison, Expression),
    IsNull(Expression),
    /// The value, and its least and its greatest.
    Between(Expression, Expression, Expression),
    In(Expression, Items<Expression>),
}

/// What a query lists.
#[derive(Drop)]
#[cycle(tree)]
pub enum SelectList {
    Star,
    One(Expression),
}

/// A query in parentheses.
#[derive(Drop)]
#[cycle(tree)]
pub struct Query {
    pub select_list: SelectList,
    pub table: Text,
    pub correlation_name: Option<Text>,
    /// The condition of WHERE.
    pub keeps: Option<Condition>,
    /// The column of GROUP BY.
    pub group: Option<ColumnName>,
    pub having: Option<Condition>,
}
