//! Expressions: sums of products of signed values.

ghost use Rattle.std.specs.Prelude.{◌≡◌, ◌||◌, IfOk};
ghost use Rattle.syntax.specs.Readers as reader;
ghost use Rattle.condition_parser.specs.Inside.{inside};
ghost use Rattle.condition_parser.specs.Nests.{Nests};
ghost use Rattle.leaf_parser.specs.Reads.{Reads};

use crate::levels::{InnerOperand, Level};
use leaf_parser::{
    CountArgument, Cursor, Part, Products, RepeatedPart, SetFunctionArgument, Stop, Sums,
    parse_column, parse_joined, parse_number, parse_parens, parse_text,
};
use sqlite_items::Boxed;
use std::alloc::{AllocError, Global};
use syntax::{Aggregate, Expression, PartInParentheses, Want};
use token::Kind;

#[tactic(auto, unfolding(syntax::specs::Readers::text))]
fn parse_text_expression(alloc: Global, cursor: &mut Cursor<'_>) -> Result<Expression, Stop>
    ensures { Reads (reader.text cursor.old) result cursor.new }
{
    Ok(Expression::Text(parse_text(alloc, cursor)?))
}

fn negate_expression(alloc: Global, inner: Expression) -> Result<Expression, AllocError>
    ensures { IfOk result (λ x. x ≡ Expression.Negation inner) }
{
    Ok(Expression::Negation(Boxed::new(alloc, inner)?))
}

/// `"*" factor`
#[derive(Drop)]
struct NextFactor<'a, F>(&'a Level<F>);

impl<'a, F: Fn(Global, &mut Cursor<'_>, usize, Want) -> Result<PartInParentheses, Stop>> Part
    for NextFactor<'a, F> {
    ghost use Rattle.syntax.specs.Readers as reader;
    ghost use Rattle.condition_parser.specs.Inside.{inside};
    ghost use Rattle.condition_parser.specs.Nests.{Nests};

    type Tree = Expression;

    ghost ready = { λ p. Nests p.0.now.depth (F.pre p.0.now.inner) (F.post p.0.now.inner) };

    ghost reader = { λ p. reader.product_item p.0.now.depth (inside p.0.now.depth) };

    #[tactic(auto, unfolding(syntax::specs::Readers::product_item))]
    fn parse(&self, cursor: &mut Cursor<'_>) -> Result<Expression, Stop> {
        cursor.expect(Kind::Star)?;
        self.0.parse_factor(cursor)
    }
}

impl<
    'a,
    F: Fn(Global, &mut Cursor<'_>, usize, Want) -> Result<PartInParentheses, Stop>,
> RepeatedPart for NextFactor<'a, F> {
    ghost use Rattle.syntax.specs.Readers as reader;

    ghost begins = { reader.is_star };

    fn begins(&self, kind: Kind) -> bool {
        matches!(kind, Kind::Star)
    }
}

/// `("+" | "-") term`
#[derive(Drop)]
struct NextTerm<'a, F>(&'a Level<F>);

impl<'a, F: Fn(Global, &mut Cursor<'_>, usize, Want) -> Result<PartInParentheses, Stop>> Part
    for NextTerm<'a, F> {
    ghost use Rattle.syntax.specs.Readers as reader;
    ghost use Rattle.condition_parser.specs.Inside.{inside};
    ghost use Rattle.condition_parser.specs.Nests.{Nests};

    type Tree = Expression;

    ghost ready = { λ p. Nests p.0.now.depth (F.pre p.0.now.inner) (F.post p.0.now.inner) };

    ghost reader = { λ p. reader.sum_item p.0.now.depth (inside p.0.now.depth) };

    #[tactic(auto, unfolding(syntax::specs::Readers::sum_item))]
    fn parse(&self, cursor: &mut Cursor<'_>) -> Result<Expression, Stop> {
        match cursor.peek() {
            Kind::Plus => {
                cursor.take(Kind::Plus);
                self.0.parse_term(cursor)
            }
            _ => {
                cursor.expect(Kind::Minus)?;
                Ok(negate_expression(self.0.alloc, self.0.parse_term(cursor)?)?)
            }
        }
    }
}

impl<
    'a,
    F: Fn(Global, &mut Cursor<'_>, usize, Want) -> Result<PartInParentheses, Stop>,
> RepeatedPart for NextTerm<'a, F> {
    ghost use Rattle.syntax.specs.Readers as reader;

    ghost begins = { reader.is_sign };

    fn begins(&self, kind: Kind) -> bool {
        matches!(kind, Kind::Plus | Kind::Minus)
    }
}

/// Whether an expression goes on behind a factor, with a token of this kind.
fn goes_on(kind: Kind) -> bool
    ensures { result ≡ (reader.is_star kind || reader.is_sign kind) }
{
    matches!(kind, Kind::Star | Kind::Plus | Kind::Minus)
}

impl<F: Fn(Global, &mut Cursor<'_>, usize, Want) -> Result<PartInParentheses, Stop>> Level<F> {
    /// What follows the name of a set function.
    #[tactic(auto, unfolding(syntax::specs::Readers::aggregate_of))]
    fn parse_aggregate(
        &self,
        cursor: &mut Cursor<'_>,
        function: Aggregate,
    ) -> Result<Expression, Stop>
        requires { Nests self.now.depth (F.pre self.now.inner) (F.post self.now.inner) }
        ensures { Reads (reader.aggregate_of self.now.depth (inside self.now.depth) function cursor.old) result
            cursor.new }
    {
        let argument = parse_parens(&SetFunctionArgument(self.alloc), cursor, self.depth)?;
        Ok(Expression::Aggregate(function, argument))
    }

    /// What follows COUNT.
    #[tactic(auto, unfolding(syntax::specs::Readers::counted))]
    fn parse_counted(&self, cursor: &mut Cursor<'_>) -> Result<Expression, Stop>
        requires { Nests self.now.depth (F.pre self.now.inner) (F.post self.now.inner) }
        ensures { Reads (reader.counted self.now.depth (inside self.now.depth) cursor.old) result cursor.new }
    {
        parse_parens(&CountArgument(self.alloc), cursor, self.depth)
    }

    /// A prim that is no number.
    #[tactic(auto, unfolding(syntax::specs::Readers::other_prim))]
    fn parse_other_prim(&self, cursor: &mut Cursor<'_>) -> Result<Expression, Stop>
        requires { Nests self.now.depth (F.pre self.now.inner) (F.post self.now.inner) }
        ensures { Reads (reader.other_prim self.now.depth (inside self.now.depth) cursor.old) result cursor.new }
    {
        match cursor.peek() {
            Kind::Text => parse_text_expression(self.alloc, cursor),
            Kind::Name => Ok(Expression::Column(parse_column(self.alloc, cursor)?)),
            Kind::Count => {
                cursor.take(Kind::Count);
                self.parse_counted(cursor)
            }
            Kind::Sum => {
                cursor.take(Kind::Sum);
                self.parse_aggregate(cursor, Aggregate::Sum)
            }
            Kind::Min => {
                cursor.take(Kind::Min);
                self.parse_aggregate(cursor, Aggregate::Min)
            }
            Kind::Max => {
                cursor.take(Kind::Max);
                self.parse_aggregate(cursor, Aggregate::Max)
            }
            Kind::Open => parse_parens(&InnerOperand(self), cursor, self.depth),
            _ => Err(Stop::Syntax),
        }
    }

    /// `number | text | colref | agg | "(" expr ")" | "(" query ")"`
    #[tactic(auto, unfolding(syntax::specs::Readers::prim))]
    fn parse_prim(&self, cursor: &mut Cursor<'_>) -> Result<Expression, Stop>
        requires { Nests self.now.depth (F.pre self.now.inner) (F.post self.now.inner) }
        ensures { Reads (reader.prim self.now.depth (inside self.now.depth) cursor.old) result cursor.new }
    {
        match cursor.peek() {
            Kind::Number => parse_number(cursor, false),
            _ => self.parse_other_prim(cursor),
        }
    }

    /// What follows a minus: with a number it makes a literal.
    #[tactic(auto, unfolding(syntax::specs::Readers::negated))]
    fn parse_negated(&self, cursor: &mut Cursor<'_>) -> Result<Expression, Stop>
        requires { Nests self.now.depth (F.pre self.now.inner) (F.post self.now.inner) }
        ensures { Reads (reader.negated self.now.depth (inside self.now.depth) cursor.old) result cursor.new }
    {
        match cursor.peek() {
            Kind::Number => parse_number(cursor, true),
            _ => Ok(negate_expression(self.alloc, self.parse_other_prim(cursor)?)?),
        }
    }

    /// `[sign] prim`
    #[tactic(auto, unfolding(syntax::specs::Readers::factor))]
    pub fn parse_factor(&self, cursor: &mut Cursor<'_>) -> Result<Expression, Stop>
        requires { Nests self.now.depth (F.pre self.now.inner) (F.post self.now.inner) }
        ensures { Reads (reader.factor self.now.depth (inside self.now.depth) cursor.old) result cursor.new }
    {
        match cursor.peek() {
            Kind::Plus => {
                cursor.take(Kind::Plus);
                self.parse_prim(cursor)
            }
            Kind::Minus => {
                cursor.take(Kind::Minus);
                self.parse_negated(cursor)
            }
            _ => self.parse_prim(cursor),
        }
    }

    /// The term that begins with this factor.
    #[tactic(auto, unfolding(syntax::specs::Readers::product_after, syntax::specs::Grammar::product_of))]
    fn parse_product_after(
        &self,
        cursor: &mut Cursor<'_>,
        first: Expression,
    ) -> Result<Expression, Stop>
        requires { Nests self.now.depth (F.pre self.now.inner) (F.post self.now.inner) }
        ensures { Reads (reader.product_after self.now.depth (inside self.now.depth) first cursor.old) result
            cursor.new }
    {
        parse_joined::<NextFactor<'_, F>, Products>(self.alloc, &NextFactor(self), cursor, first)
    }

    /// `factor { "*" factor }`
    #[tactic(auto, unfolding(syntax::specs::Readers::term))]
    fn parse_term(&self, cursor: &mut Cursor<'_>) -> Result<Expression, Stop>
        requires { Nests self.now.depth (F.pre self.now.inner) (F.post self.now.inner) }
        ensures { Reads (reader.term self.now.depth (inside self.now.depth) cursor.old) result cursor.new }
    {
        let first = self.parse_factor(cursor)?;
        self.parse_product_after(cursor, first)
    }

    /// The expression that begins with this term.
    #[tactic(auto, unfolding(syntax::specs::Readers::sum_after, syntax::specs::Grammar::sum_of))]
    fn parse_sum_after(
        &self,
        cursor: &mut Cursor<'_>,
        first: Expression,
    ) -> Result<Expression, Stop>
        requires { Nests self.now.depth (F.pre self.now.inner) (F.post self.now.inner) }
        ensures { Reads (reader.sum_after self.now.depth (inside self.now.depth) first cursor.old) result cursor.new }
    {
        parse_joined::<NextTerm<'_, F>, Sums>(self.alloc, &NextTerm(self), cursor, first)
    }

    /// The expression that begins with this factor.
    #[tactic(auto, using(crate::proofs::Alone::alone), unfolding(syntax::specs::Readers::expr_after))]
    pub fn parse_expression_after(
        &self,
        cursor: &mut Cursor<'_>,
        first: Expression,
    ) -> Result<Expression, Stop>
        requires { Nests self.now.depth (F.pre self.now.inner) (F.post self.now.inner) }
        ensures { Reads (reader.expr_after self.now.depth (inside self.now.depth) first cursor.old) result cursor.new }
    {
        // Most expressions are one factor, and moving it costs as much as reading it.
        if !goes_on(cursor.peek()) {
            return Ok(first);
        }
        let first = self.parse_product_after(cursor, first)?;
        self.parse_sum_after(cursor, first)
    }

    /// `term { ("+" | "-") term }`
    #[tactic(auto, unfolding(syntax::specs::Readers::expr))]
    pub fn parse_expression(&self, cursor: &mut Cursor<'_>) -> Result<Expression, Stop>
        requires { Nests self.now.depth (F.pre self.now.inner) (F.post self.now.inner) }
        ensures { Reads (reader.expr self.now.depth (inside self.now.depth) cursor.old) result cursor.new }
    {
        let first = self.parse_factor(cursor)?;
        self.parse_expression_after(cursor, first)
    }
}
