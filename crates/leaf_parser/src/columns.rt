//! The names of columns, and what is written with them.

ghost use Rattle.syntax.specs.Reading as rd;
ghost use Rattle.syntax.specs.Grammar as spec;
ghost use Rattle.syntax.specs.Readers as reader;
ghost use Rattle.leaf_parser.specs.Reads.{Reads};

use crate::cursors::{Cursor, Piece};
use crate::loops::Part;
use crate::names::{name_of, parse_name};
use crate::stops::Stop;
use std::alloc::Global;
use syntax::{Aggregate, Argument, ColumnName, Expression, SetQuantifier};
use token::Kind;
use value::Text;

#[tactic(auto, unfolding(syntax::specs::Readers::column_after))]
fn parse_column_after(
    alloc: Global,
    cursor: &mut Cursor<'_>,
    first: &Piece<'_>,
) -> Result<ColumnName, Stop>
    ensures { Reads (reader.column_after first.now cursor.old) result cursor.new }
{
    let name = name_of(alloc, first)?;
    match cursor.peek() {
        Kind::Dot => {
            cursor.take(Kind::Dot);
            let second = cursor.expect(Kind::Name)?;
            Ok(ColumnName {
                qualifier: Some(name),
                name: name_of(alloc, &second)?,
            })
        }
        _ => Ok(ColumnName {
            qualifier: None,
            name,
        }),
    }
}

#[tactic(auto, unfolding(syntax::specs::Readers::column))]
pub fn parse_column(alloc: Global, cursor: &mut Cursor<'_>) -> Result<ColumnName, Stop>
    ensures { Reads (reader.column cursor.old) result cursor.new }
{
    let first = cursor.expect(Kind::Name)?;
    parse_column_after(alloc, cursor, &first)
}

#[tactic(auto, unfolding(syntax::specs::Readers::correlation_name))]
pub fn parse_correlation_name(alloc: Global, cursor: &mut Cursor<'_>) -> Result<Option<Text>, Stop>
    ensures { Reads (reader.correlation_name cursor.old) result cursor.new }
{
    match cursor.peek() {
        Kind::As => {
            cursor.take(Kind::As);
            Ok(Some(parse_name(alloc, cursor)?))
        }
        Kind::Name => Ok(Some(parse_name(alloc, cursor)?)),
        _ => Ok(None),
    }
}

#[tactic(auto, unfolding(syntax::specs::Readers::group_by))]
pub fn parse_group_by(alloc: Global, cursor: &mut Cursor<'_>) -> Result<Option<ColumnName>, Stop>
    ensures { Reads (reader.group_by cursor.old) result cursor.new }
{
    if !cursor.is(Kind::Group) {
        return Ok(None);
    }
    cursor.expect(Kind::Group)?;
    cursor.expect(Kind::By)?;
    Ok(Some(parse_column(alloc, cursor)?))
}

/// A set function's argument, whose set quantifier is read.
fn parse_quantified(
    alloc: Global,
    cursor: &mut Cursor<'_>,
    quantifier: SetQuantifier,
) -> Result<Argument, Stop>
    ensures { Reads (rd.◌<$>◌ (spec.argument_of quantifier) reader.column cursor.old) result cursor.new }
{
    let column = parse_column(alloc, cursor)?;
    Ok(Argument { quantifier, column })
}

/// What a set function is of: `[ALL | DISTINCT] column`.
#[tactic(auto, unfolding(syntax::specs::Readers::argument))]
pub fn parse_argument(alloc: Global, cursor: &mut Cursor<'_>) -> Result<Argument, Stop>
    ensures { Reads (reader.argument cursor.old) result cursor.new }
{
    match cursor.peek() {
        Kind::All => {
            cursor.take(Kind::All);
            parse_quantified(alloc, cursor, SetQuantifier::All)
        }
        Kind::Distinct => {
            cursor.take(Kind::Distinct);
            parse_quantified(alloc, cursor, SetQuantifier::Distinct)
        }
        _ => parse_quantified(alloc, cursor, SetQuantifier::All),
    }
}

/// What a set function is of, as what may stand in parentheses.
#[derive(Drop)]
pub struct SetFunctionArgument(pub Global);

impl Part for SetFunctionArgument {
    ghost use Rattle.syntax.specs.Readers as reader;

    type Tree = Argument;

    ghost ready = { λ _. Unit {0} };

    ghost reader = { λ _. reader.argument };

    fn parse(&self, cursor: &mut Cursor<'_>) -> Result<Argument, Stop> {
        parse_argument(self.0, cursor)
    }
}

/// What stands in the parentheses of COUNT: `*`, or the argument of a set function.
#[derive(Drop)]
pub struct CountArgument(pub Global);

impl Part for CountArgument {
    ghost use Rattle.syntax.specs.Readers as reader;

    type Tree = Expression;

    ghost ready = { λ _. Unit {0} };

    ghost reader = { λ _. reader.counted_inside };

    #[tactic(auto, unfolding(syntax::specs::Readers::counted_inside))]
    fn parse(&self, cursor: &mut Cursor<'_>) -> Result<Expression, Stop> {
        match cursor.peek() {
            Kind::Star => {
                cursor.take(Kind::Star);
                Ok(Expression::CountRows)
            }
            _ => Ok(Expression::Aggregate(Aggregate::Count, parse_argument(self.0, cursor)?)),
        }
    }
}
