//! One level of parentheses. The reader of what stands in them is a parameter, so that each method is proved by itself.

ghost use Rattle.syntax.specs.Readers as reader;
ghost use Rattle.condition_parser.specs.Inside.{inside};
ghost use Rattle.condition_parser.specs.Nests.{Nests};
ghost use Rattle.leaf_parser.specs.Reads.{Reads};

use leaf_parser::{Cursor, Part, Stop, drop_and_stop};
use sqlite_items::Boxed;
use std::alloc::Global;
use syntax::{Expression, PartInParentheses, Query, Want};

/// What one level of parentheses is read with: how many more may be opened, and the reader of what stands in one.
#[derive(Clone, Copy)]
pub struct Level<F> {
    pub alloc: Global,
    pub depth: usize,
    pub inner: F,
}

impl<F: Fn(Global, &mut Cursor<'_>, usize, Want) -> Result<PartInParentheses, Stop>> Level<F> {
    /// What stands in parentheses that are open.
    #[tactic(auto, unfolding(crate::specs::Inside::inside))]
    pub fn parse_inside(
        &self,
        cursor: &mut Cursor<'_>,
        wanted: Want,
    ) -> Result<PartInParentheses, Stop>
        requires { Nests self.now.depth (F.pre self.now.inner) (F.post self.now.inner) }
        ensures { Reads (inside self.now.depth wanted cursor.old) result cursor.new }
    {
        if self.depth == 0 {
            return Err(Stop::Syntax);
        }
        (self.inner)(self.alloc, cursor, self.depth - 1, wanted)
    }
}

/// An expression in parentheses.
#[derive(Drop)]
pub struct InnerExpression<'a, F>(pub &'a Level<F>);

impl<'a, F: Fn(Global, &mut Cursor<'_>, usize, Want) -> Result<PartInParentheses, Stop>> Part
    for InnerExpression<'a, F> {
    ghost use Rattle.syntax.specs.Readers as reader;
    ghost use Rattle.condition_parser.specs.Inside.{inside};
    ghost use Rattle.condition_parser.specs.Nests.{Nests};

    type Tree = Expression;

    ghost ready = { λ p. Nests p.0.now.depth (F.pre p.0.now.inner) (F.post p.0.now.inner) };

    ghost reader = { λ p. reader.inner_expr p.0.now.depth (inside p.0.now.depth) };

    #[tactic(auto, unfolding(syntax::specs::Readers::inner_expr))]
    fn parse(&self, cursor: &mut Cursor<'_>) -> Result<Expression, Stop> {
        match self.0.parse_inside(cursor, Want::Expression)? {
            PartInParentheses::Expression(x) => Ok(x),
            PartInParentheses::Condition(x) => Err(drop_and_stop(Stop::Syntax, x)),
            PartInParentheses::Query(x) => Err(drop_and_stop(Stop::Syntax, x)),
        }
    }
}

/// A query in parentheses.
#[derive(Drop)]
pub struct InnerQuery<'a, F>(pub &'a Level<F>);

impl<'a, F: Fn(Global, &mut Cursor<'_>, usize, Want) -> Result<PartInParentheses, Stop>> Part
    for InnerQuery<'a, F> {
    ghost use Rattle.syntax.specs.Readers as reader;
    ghost use Rattle.condition_parser.specs.Inside.{inside};
    ghost use Rattle.condition_parser.specs.Nests.{Nests};

    type Tree = Boxed<Query>;

    ghost ready = { λ p. Nests p.0.now.depth (F.pre p.0.now.inner) (F.post p.0.now.inner) };

    ghost reader = { λ p. reader.inner_query p.0.now.depth (inside p.0.now.depth) };

    #[tactic(auto, unfolding(syntax::specs::Readers::inner_query))]
    fn parse(&self, cursor: &mut Cursor<'_>) -> Result<Boxed<Query>, Stop> {
        match self.0.parse_inside(cursor, Want::Query)? {
            PartInParentheses::Query(x) => Ok(x),
            PartInParentheses::Condition(x) => Err(drop_and_stop(Stop::Syntax, x)),
            PartInParentheses::Expression(x) => Err(drop_and_stop(Stop::Syntax, x)),
        }
    }
}

/// An expression in parentheses, or a query for its value.
#[derive(Drop)]
pub struct InnerOperand<'a, F>(pub &'a Level<F>);

impl<'a, F: Fn(Global, &mut Cursor<'_>, usize, Want) -> Result<PartInParentheses, Stop>> Part
    for InnerOperand<'a, F> {
    ghost use Rattle.syntax.specs.Readers as reader;
    ghost use Rattle.condition_parser.specs.Inside.{inside};
    ghost use Rattle.condition_parser.specs.Nests.{Nests};

    type Tree = Expression;

    ghost ready = { λ p. Nests p.0.now.depth (F.pre p.0.now.inner) (F.post p.0.now.inner) };

    ghost reader = { λ p. reader.inner_operand p.0.now.depth (inside p.0.now.depth) };

    #[tactic(auto, unfolding(syntax::specs::Readers::inner_operand))]
    fn parse(&self, cursor: &mut Cursor<'_>) -> Result<Expression, Stop> {
        match self.0.parse_inside(cursor, Want::Operand)? {
            PartInParentheses::Expression(x) => Ok(x),
            PartInParentheses::Query(x) => Ok(Expression::Subquery(x)),
            PartInParentheses::Condition(x) => Err(drop_and_stop(Stop::Syntax, x)),
        }
    }
}

/// A condition or an expression in parentheses, or a query for its value.
#[derive(Drop)]
pub struct InnerTest<'a, F>(pub &'a Level<F>);

impl<'a, F: Fn(Global, &mut Cursor<'_>, usize, Want) -> Result<PartInParentheses, Stop>> Part
    for InnerTest<'a, F> {
    ghost use Rattle.syntax.specs.Readers as reader;
    ghost use Rattle.condition_parser.specs.Inside.{inside};
    ghost use Rattle.condition_parser.specs.Nests.{Nests};

    type Tree = PartInParentheses;

    ghost ready = { λ p. Nests p.0.now.depth (F.pre p.0.now.inner) (F.post p.0.now.inner) };

    ghost reader = { λ p. reader.inner_test p.0.now.depth (inside p.0.now.depth) };

    #[tactic(auto, unfolding(syntax::specs::Readers::inner_test))]
    fn parse(&self, cursor: &mut Cursor<'_>) -> Result<PartInParentheses, Stop> {
        match self.0.parse_inside(cursor, Want::Any)? {
            PartInParentheses::Query(x) => Ok(PartInParentheses::Expression(Expression::Subquery(
                x,
            ))),
            PartInParentheses::Condition(x) => Ok(PartInParentheses::Condition(x)),
            PartInParentheses::Expression(x) => Ok(PartInParentheses::Expression(x)),
        }
    }
}
