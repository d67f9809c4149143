//! Conditions: ORs of ANDs of tests.

ghost use Rattle.syntax.specs.Reading as rd;
ghost use Rattle.syntax.specs.Readers as reader;
ghost use Rattle.condition_parser.specs.Inside.{inside};
ghost use Rattle.condition_parser.specs.Nests.{Nests};
ghost use Rattle.leaf_parser.specs.Reads.{Reads};

use crate::comparisons::{begins_comparison, negate_condition};
use crate::levels::{InnerTest, Level};
use leaf_parser::{
    Ands, Cursor, Ors, Part, RepeatedPart, Stop, drop_and_stop, parse_joined_boxed, parse_parens,
};
use sqlite_items::Boxed;
use std::alloc::Global;
use syntax::{Condition, Expression, PartInParentheses, Want};
use token::Kind;

/// `AND bfact`
#[derive(Drop)]
struct NextTest<'a, F>(&'a Level<F>);

impl<'a, F: Fn(Global, &mut Cursor<'_>, usize, Want) -> Result<PartInParentheses, Stop>> Part
    for NextTest<'a, F> {
    ghost use Rattle.syntax.specs.Readers as reader;
    ghost use Rattle.condition_parser.specs.Inside.{inside};
    ghost use Rattle.condition_parser.specs.Nests.{Nests};

    type Tree = Condition;

    ghost ready = { λ p. Nests p.0.now.depth (F.pre p.0.now.inner) (F.post p.0.now.inner) };

    ghost reader = { λ p. reader.and_item p.0.now.depth (inside p.0.now.depth) };

    #[tactic(auto, unfolding(syntax::specs::Readers::and_item))]
    fn parse(&self, cursor: &mut Cursor<'_>) -> Result<Condition, Stop> {
        cursor.expect(Kind::And)?;
        Ok(self.0.parse_bfact(cursor)?.into_inner())
    }
}

impl<
    'a,
    F: Fn(Global, &mut Cursor<'_>, usize, Want) -> Result<PartInParentheses, Stop>,
> RepeatedPart for NextTest<'a, F> {
    ghost use Rattle.syntax.specs.Readers as reader;

    ghost begins = { reader.is_and };

    fn begins(&self, kind: Kind) -> bool {
        matches!(kind, Kind::And)
    }
}

/// `OR bterm`
#[derive(Drop)]
struct NextTerm<'a, F>(&'a Level<F>);

impl<'a, F: Fn(Global, &mut Cursor<'_>, usize, Want) -> Result<PartInParentheses, Stop>> Part
    for NextTerm<'a, F> {
    ghost use Rattle.syntax.specs.Readers as reader;
    ghost use Rattle.condition_parser.specs.Inside.{inside};
    ghost use Rattle.condition_parser.specs.Nests.{Nests};

    type Tree = Condition;

    ghost ready = { λ p. Nests p.0.now.depth (F.pre p.0.now.inner) (F.post p.0.now.inner) };

    ghost reader = { λ p. reader.or_item p.0.now.depth (inside p.0.now.depth) };

    #[tactic(auto, unfolding(syntax::specs::Readers::or_item))]
    fn parse(&self, cursor: &mut Cursor<'_>) -> Result<Condition, Stop> {
        cursor.expect(Kind::Or)?;
        Ok(self.0.parse_bterm(cursor)?.into_inner())
    }
}

impl<
    'a,
    F: Fn(Global, &mut Cursor<'_>, usize, Want) -> Result<PartInParentheses, Stop>,
> RepeatedPart for NextTerm<'a, F> {
    ghost use Rattle.syntax.specs.Readers as reader;

    ghost begins = { reader.is_or };

    fn begins(&self, kind: Kind) -> bool {
        matches!(kind, Kind::Or)
    }
}

impl<F: Fn(Global, &mut Cursor<'_>, usize, Want) -> Result<PartInParentheses, Stop>> Level<F> {
    /// A condition in parentheses, EXISTS, or the first factor of an expression.
    #[tactic(auto, unfolding(syntax::specs::Readers::first))]
    pub fn parse_first(&self, cursor: &mut Cursor<'_>) -> Result<PartInParentheses, Stop>
        requires { Nests self.now.depth (F.pre self.now.inner) (F.post self.now.inner) }
        ensures { Reads (reader.first self.now.depth (inside self.now.depth) cursor.old) result cursor.new }
    {
        match cursor.peek() {
            Kind::Open => parse_parens(&InnerTest(self), cursor, self.depth),
            Kind::Exists => Ok(PartInParentheses::Condition(self.parse_exists(cursor)?)),
            _ => Ok(PartInParentheses::Expression(self.parse_factor(cursor)?)),
        }
    }

    /// `bprim [ IS [NOT] (TRUE | FALSE | UNKNOWN) ]`
    #[tactic(auto, unfolding(syntax::specs::Readers::btest))]
    fn parse_btest(&self, cursor: &mut Cursor<'_>) -> Result<Boxed<Condition>, Stop>
        requires { Nests self.now.depth (F.pre self.now.inner) (F.post self.now.inner) }
        ensures { Reads (reader.btest self.now.depth (inside self.now.depth) cursor.old) result cursor.new }
    {
        match self.parse_first(cursor)? {
            PartInParentheses::Condition(x) => self.parse_is_after(cursor, x),
            PartInParentheses::Expression(x) => {
                let left = self.parse_expression_after(cursor, x)?;
                let test = self.parse_comparison(cursor, left)?;
                self.parse_is_after(cursor, test)
            }
            PartInParentheses::Query(x) => Err(drop_and_stop(Stop::Syntax, x)),
        }
    }

    /// `[NOT] btest`
    #[tactic(auto, unfolding(syntax::specs::Readers::bfact))]
    fn parse_bfact(&self, cursor: &mut Cursor<'_>) -> Result<Boxed<Condition>, Stop>
        requires { Nests self.now.depth (F.pre self.now.inner) (F.post self.now.inner) }
        ensures { Reads (reader.bfact self.now.depth (inside self.now.depth) cursor.old) result cursor.new }
    {
        match cursor.peek() {
            Kind::Not => {
                cursor.take(Kind::Not);
                Ok(negate_condition(self.alloc, self.parse_btest(cursor)?)?)
            }
            _ => self.parse_btest(cursor),
        }
    }

    /// The bterm that begins with this bfact.
    #[tactic(auto, unfolding(syntax::specs::Readers::and_after, syntax::specs::Grammar::and_of))]
    fn parse_and_after(
        &self,
        cursor: &mut Cursor<'_>,
        first: Boxed<Condition>,
    ) -> Result<Boxed<Condition>, Stop>
        requires { Nests self.now.depth (F.pre self.now.inner) (F.post self.now.inner) }
        ensures { Reads (reader.and_after self.now.depth (inside self.now.depth) first cursor.old) result cursor.new }
    {
        parse_joined_boxed::<NextTest<'_, F>, Ands>(self.alloc, &NextTest(self), cursor, first)
    }

    /// `bfact { AND bfact }`
    #[tactic(auto, unfolding(syntax::specs::Readers::bterm))]
    fn parse_bterm(&self, cursor: &mut Cursor<'_>) -> Result<Boxed<Condition>, Stop>
        requires { Nests self.now.depth (F.pre self.now.inner) (F.post self.now.inner) }
        ensures { Reads (reader.bterm self.now.depth (inside self.now.depth) cursor.old) result cursor.new }
    {
        let first = self.parse_bfact(cursor)?;
        self.parse_and_after(cursor, first)
    }

    /// The condition that begins with this bterm.
    #[tactic(auto, unfolding(syntax::specs::Readers::or_after, syntax::specs::Grammar::or_of))]
    fn parse_or_after(
        &self,
        cursor: &mut Cursor<'_>,
        first: Boxed<Condition>,
    ) -> Result<Boxed<Condition>, Stop>
        requires { Nests self.now.depth (F.pre self.now.inner) (F.post self.now.inner) }
        ensures { Reads (reader.or_after self.now.depth (inside self.now.depth) first cursor.old) result cursor.new }
    {
        parse_joined_boxed::<NextTerm<'_, F>, Ors>(self.alloc, &NextTerm(self), cursor, first)
    }

    /// The condition that begins with this bfact.
    #[tactic(auto, unfolding(syntax::specs::Readers::cond_after))]
    fn parse_condition_after(
        &self,
        cursor: &mut Cursor<'_>,
        first: Boxed<Condition>,
    ) -> Result<Boxed<Condition>, Stop>
        requires { Nests self.now.depth (F.pre self.now.inner) (F.post self.now.inner) }
        ensures { Reads (reader.cond_after self.now.depth (inside self.now.depth) first cursor.old) result cursor.new }
    {
        let first = self.parse_and_after(cursor, first)?;
        self.parse_or_after(cursor, first)
    }

    /// `bterm { OR bterm }`
    #[tactic(auto, unfolding(syntax::specs::Readers::condition))]
    pub fn parse_condition(&self, cursor: &mut Cursor<'_>) -> Result<Boxed<Condition>, Stop>
        requires { Nests self.now.depth (F.pre self.now.inner) (F.post self.now.inner) }
        ensures { Reads (reader.condition self.now.depth (inside self.now.depth) cursor.old) result cursor.new }
    {
        let first = self.parse_bfact(cursor)?;
        self.parse_condition_after(cursor, first)
    }

    /// The condition that begins with this bprim.
    pub fn parse_rest_of_condition(
        &self,
        cursor: &mut Cursor<'_>,
        first: Boxed<Condition>,
    ) -> Result<PartInParentheses, Stop>
        requires { Nests self.now.depth (F.pre self.now.inner) (F.post self.now.inner) }
        ensures { Reads
            (rd.◌<$>◌ PartInParentheses.Condition
            (rd.◌>>=◌ (reader.is_after self.now.depth (inside self.now.depth) first)
            (reader.cond_after self.now.depth (inside self.now.depth))) cursor.old) result cursor.new }
    {
        let test = self.parse_is_after(cursor, first)?;
        let whole = self.parse_condition_after(cursor, test)?;
        Ok(PartInParentheses::Condition(whole))
    }

    /// This expression, or the condition that begins with it.
    #[tactic(auto, unfolding(syntax::specs::Readers::any_after))]
    pub fn parse_any_after(
        &self,
        cursor: &mut Cursor<'_>,
        left: Expression,
    ) -> Result<PartInParentheses, Stop>
        requires { Nests self.now.depth (F.pre self.now.inner) (F.post self.now.inner) }
        ensures { Reads (reader.any_after self.now.depth (inside self.now.depth) left cursor.old) result cursor.new }
    {
        if !begins_comparison(cursor.peek()) {
            return Ok(PartInParentheses::Expression(left));
        }
        let test = self.parse_comparison(cursor, left)?;
        self.parse_rest_of_condition(cursor, test)
    }
}
