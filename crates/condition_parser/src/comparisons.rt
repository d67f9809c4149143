//! What makes a condition of an expression, and what follows a condition.

ghost use Rattle.std.specs.Prelude.{◌≡◌, IfOk};
ghost use Rattle.token.specs.declared.kinds.Kind.TheVariants as kinds;
ghost use Rattle.syntax.specs.Reading as rd;
ghost use Rattle.syntax.specs.Readers as reader;
ghost use Rattle.condition_parser.specs.Inside.{inside};
ghost use Rattle.condition_parser.specs.Nests.{Nests};
ghost use Rattle.leaf_parser.specs.Reads.{Reads, IsAt};

use crate::levels::{InnerExpression, InnerQuery, Level};
use leaf_parser::{
    Cursor, Stop, drop_and_stop, parse_comparison_sign, parse_parens, parse_parens_list,
    parse_truth,
};
use sqlite_items::Boxed;
use std::alloc::{AllocError, Global};
use syntax::{Condition, Expression, PartInParentheses, Want};
use token::Kind;
use value::Truth;

/// What makes a condition of an expression begins so.
pub fn begins_comparison(kind: Kind) -> bool
    ensures { result ≡ reader.begins_comparison kind }
{
    match kind {
        Kind::Equal
        | Kind::NotEqual
        | Kind::Less
        | Kind::AtMost
        | Kind::Greater
        | Kind::AtLeast
        | Kind::Is
        | Kind::Not
        | Kind::Between
        | Kind::In => true,
        _ => false,
    }
}

pub fn negate_condition(
    alloc: Global,
    inner: Boxed<Condition>,
) -> Result<Boxed<Condition>, AllocError>
    ensures { IfOk result (λ x. x ≡ Condition.Not inner) }
{
    Boxed::new(alloc, Condition::Not(inner))
}

fn make_is(
    alloc: Global,
    left: Boxed<Condition>,
    value: Truth,
) -> Result<Boxed<Condition>, AllocError>
    ensures { IfOk result (λ x. x ≡ Condition.Is left value) }
{
    Boxed::new(alloc, Condition::Is(left, value))
}

fn make_is_not(
    alloc: Global,
    left: Boxed<Condition>,
    value: Truth,
) -> Result<Boxed<Condition>, AllocError>
    ensures { IfOk result (λ x. x ≡ Condition.Not (Condition.Is left value)) }
{
    negate_condition(alloc, make_is(alloc, left, value)?)
}

fn make_is_not_null(alloc: Global, left: Expression) -> Result<Boxed<Condition>, AllocError>
    ensures { IfOk result (λ x. x ≡ Condition.Not (Condition.IsNull left)) }
{
    negate_condition(alloc, Boxed::new(alloc, Condition::IsNull(left))?)
}

fn parse_is_truth(
    alloc: Global,
    cursor: &mut Cursor<'_>,
    left: Boxed<Condition>,
) -> Result<Boxed<Condition>, Stop>
    ensures { Reads (rd.◌<$>◌ (Condition.Is left) reader.truth cursor.old) result cursor.new }
{
    match parse_truth(cursor) {
        Ok(value) => Ok(make_is(alloc, left, value)?),
        Err(stop) => Err(drop_and_stop(stop, left)),
    }
}

fn parse_is_not_truth(
    alloc: Global,
    cursor: &mut Cursor<'_>,
    left: Boxed<Condition>,
) -> Result<Boxed<Condition>, Stop>
    ensures { Reads (rd.◌<$>◌ (λ y. Condition.Not (Condition.Is left y)) reader.truth cursor.old) result cursor.new }
{
    match parse_truth(cursor) {
        Ok(value) => Ok(make_is_not(alloc, left, value)?),
        Err(stop) => Err(drop_and_stop(stop, left)),
    }
}

impl<F: Fn(Global, &mut Cursor<'_>, usize, Want) -> Result<PartInParentheses, Stop>> Level<F> {
    /// `BETWEEN expr AND expr`. The AND is its own.
    #[tactic(auto, unfolding(syntax::specs::Readers::between))]
    fn parse_between(
        &self,
        cursor: &mut Cursor<'_>,
        left: Expression,
    ) -> Result<Boxed<Condition>, Stop>
        requires nests { Nests self.now.depth (F.pre self.now.inner) (F.post self.now.inner) }
        requires at { IsAt kinds.Between cursor.old }
        ensures { Reads (reader.between self.now.depth (inside self.now.depth) left cursor.old) result cursor.new }
    {
        cursor.take(Kind::Between);
        let low = match self.parse_expression(cursor) {
            Ok(low) => low,
            Err(stop) => return Err(drop_and_stop(stop, left)),
        };
        if let Err(stop) = cursor.expect(Kind::And) {
            return Err(drop_and_stop(stop, (left, low)));
        }
        match self.parse_expression(cursor) {
            Ok(high) => Ok(Boxed::new(self.alloc, Condition::Between(left, low, high))?),
            Err(stop) => Err(drop_and_stop(stop, (left, low))),
        }
    }

    /// `IN "(" expr { "," expr } ")"`
    #[tactic(auto, unfolding(syntax::specs::Readers::in_list))]
    fn parse_in_list(
        &self,
        cursor: &mut Cursor<'_>,
        left: Expression,
    ) -> Result<Boxed<Condition>, Stop>
        requires nests { Nests self.now.depth (F.pre self.now.inner) (F.post self.now.inner) }
        requires at { IsAt kinds.In cursor.old }
        ensures { Reads (reader.in_list self.now.depth (inside self.now.depth) left cursor.old) result cursor.new }
    {
        cursor.take(Kind::In);
        match parse_parens_list(self.alloc, &InnerExpression(self), cursor, self.depth) {
            Ok(items) => Ok(Boxed::new(self.alloc, Condition::In(left, items))?),
            Err(stop) => Err(drop_and_stop(stop, left)),
        }
    }

    /// `BETWEEN .. | IN ..`
    #[tactic(auto, unfolding(syntax::specs::Readers::range_or_list))]
    fn parse_range_or_list(
        &self,
        cursor: &mut Cursor<'_>,
        left: Expression,
    ) -> Result<Boxed<Condition>, Stop>
        requires { Nests self.now.depth (F.pre self.now.inner) (F.post self.now.inner) }
        ensures { Reads (reader.range_or_list self.now.depth (inside self.now.depth) left cursor.old) result
            cursor.new }
    {
        match cursor.peek() {
            Kind::Between => self.parse_between(cursor, left),
            Kind::In => self.parse_in_list(cursor, left),
            _ => Err(drop_and_stop(Stop::Syntax, left)),
        }
    }

    /// `[NOT] NULL`, behind IS.
    #[tactic(auto, unfolding(syntax::specs::Readers::null))]
    fn parse_null(
        &self,
        cursor: &mut Cursor<'_>,
        left: Expression,
    ) -> Result<Boxed<Condition>, Stop>
        requires { Nests self.now.depth (F.pre self.now.inner) (F.post self.now.inner) }
        ensures { Reads (reader.null self.now.depth (inside self.now.depth) left cursor.old) result cursor.new }
    {
        match cursor.peek() {
            Kind::Null => {
                cursor.take(Kind::Null);
                Ok(Boxed::new(self.alloc, Condition::IsNull(left))?)
            }
            Kind::Not => {
                cursor.take(Kind::Not);
                match cursor.expect(Kind::Null) {
                    Ok(_) => Ok(make_is_not_null(self.alloc, left)?),
                    Err(stop) => Err(drop_and_stop(stop, left)),
                }
            }
            _ => Err(drop_and_stop(Stop::Syntax, left)),
        }
    }

    /// `cmp expr`
    #[tactic(auto, unfolding(syntax::specs::Readers::compared))]
    fn parse_compared(
        &self,
        cursor: &mut Cursor<'_>,
        left: Expression,
    ) -> Result<Boxed<Condition>, Stop>
        requires { Nests self.now.depth (F.pre self.now.inner) (F.post self.now.inner) }
        ensures { Reads (reader.compared self.now.depth (inside self.now.depth) left cursor.old) result cursor.new }
    {
        let sign = match parse_comparison_sign(cursor) {
            Ok(sign) => sign,
            Err(stop) => return Err(drop_and_stop(stop, left)),
        };
        match self.parse_expression(cursor) {
            Ok(right) => Ok(Boxed::new(self.alloc, Condition::Compare(left, sign, right))?),
            Err(stop) => Err(drop_and_stop(stop, left)),
        }
    }

    /// What makes a condition of an expression.
    #[tactic(auto, unfolding(syntax::specs::Readers::comparison))]
    pub fn parse_comparison(
        &self,
        cursor: &mut Cursor<'_>,
        left: Expression,
    ) -> Result<Boxed<Condition>, Stop>
        requires { Nests self.now.depth (F.pre self.now.inner) (F.post self.now.inner) }
        ensures { Reads (reader.comparison self.now.depth (inside self.now.depth) left cursor.old) result cursor.new }
    {
        match cursor.peek() {
            Kind::Is => {
                cursor.take(Kind::Is);
                self.parse_null(cursor, left)
            }
            Kind::Not => {
                cursor.take(Kind::Not);
                Ok(negate_condition(self.alloc, self.parse_range_or_list(cursor, left)?)?)
            }
            Kind::Between | Kind::In => self.parse_range_or_list(cursor, left),
            _ => self.parse_compared(cursor, left),
        }
    }

    /// `[NOT] (TRUE | FALSE | UNKNOWN)`, behind IS.
    #[tactic(auto, unfolding(syntax::specs::Readers::truth_after))]
    fn parse_truth_after(
        &self,
        cursor: &mut Cursor<'_>,
        left: Boxed<Condition>,
    ) -> Result<Boxed<Condition>, Stop>
        requires { Nests self.now.depth (F.pre self.now.inner) (F.post self.now.inner) }
        ensures { Reads (reader.truth_after self.now.depth (inside self.now.depth) left cursor.old) result cursor.new }
    {
        match cursor.peek() {
            Kind::Not => {
                cursor.take(Kind::Not);
                parse_is_not_truth(self.alloc, cursor, left)
            }
            _ => parse_is_truth(self.alloc, cursor, left),
        }
    }

    /// `[ IS [NOT] (TRUE | FALSE | UNKNOWN) ]`
    #[tactic(auto, unfolding(syntax::specs::Readers::is_after))]
    pub fn parse_is_after(
        &self,
        cursor: &mut Cursor<'_>,
        left: Boxed<Condition>,
    ) -> Result<Boxed<Condition>, Stop>
        requires { Nests self.now.depth (F.pre self.now.inner) (F.post self.now.inner) }
        ensures { Reads (reader.is_after self.now.depth (inside self.now.depth) left cursor.old) result cursor.new }
    {
        match cursor.peek() {
            Kind::Is => {
                cursor.take(Kind::Is);
                self.parse_truth_after(cursor, left)
            }
            _ => Ok(left),
        }
    }

    /// `EXISTS "(" query ")"`
    #[tactic(auto, unfolding(syntax::specs::Readers::exists))]
    pub fn parse_exists(&self, cursor: &mut Cursor<'_>) -> Result<Boxed<Condition>, Stop>
        requires nests { Nests self.now.depth (F.pre self.now.inner) (F.post self.now.inner) }
        requires at { IsAt kinds.Exists cursor.old }
        ensures { Reads (reader.exists self.now.depth (inside self.now.depth) cursor.old) result cursor.new }
    {
        cursor.take(Kind::Exists);
        let query = parse_parens(&InnerQuery(self), cursor, self.depth)?;
        Ok(Boxed::new(self.alloc, Condition::Exists(query))?)
    }
}
