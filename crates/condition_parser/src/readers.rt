//! Conditions and expressions, where so many parentheses may be opened.

ghost use Rattle.syntax.specs.Readers as reader;
ghost use Rattle.leaf_parser.specs.Reads.{Reads};

use crate::levels::Level;
use leaf_parser::{Cursor, Stop, drop_and_stop};
use sqlite_items::Boxed;
use std::alloc::Global;
use syntax::{Condition, Expression, PartInParentheses, Want};

/// What is wanted, where so many parentheses may be opened.
pub fn read(
    alloc: Global,
    cursor: &mut Cursor<'_>,
    depth: usize,
    wanted: Want,
) -> Result<PartInParentheses, Stop>
    ensures { Reads (reader.read depth wanted cursor.old) result cursor.new }
{
    Level {
        alloc,
        depth,
        inner: read,
    }
    .parse_wanted(cursor, wanted)
}

/// A condition, where so many parentheses may be opened.
#[tactic(auto, unfolding(syntax::specs::Readers::cond_at))]
pub fn parse_condition(
    alloc: Global,
    cursor: &mut Cursor<'_>,
    depth: usize,
) -> Result<Boxed<Condition>, Stop>
    ensures { Reads (reader.cond_at depth cursor.old) result cursor.new }
{
    match read(alloc, cursor, depth, Want::Condition)? {
        PartInParentheses::Condition(x) => Ok(x),
        PartInParentheses::Expression(x) => Err(drop_and_stop(Stop::Syntax, x)),
        PartInParentheses::Query(x) => Err(drop_and_stop(Stop::Syntax, x)),
    }
}

/// An expression, where so many parentheses may be opened.
#[tactic(auto, unfolding(syntax::specs::Readers::expr_at))]
pub fn parse_expression(
    alloc: Global,
    cursor: &mut Cursor<'_>,
    depth: usize,
) -> Result<Expression, Stop>
    ensures { Reads (reader.expr_at depth cursor.old) result cursor.new }
{
    match read(alloc, cursor, depth, Want::Expression)? {
        PartInParentheses::Expression(x) => Ok(x),
        PartInParentheses::Condition(x) => Err(drop_and_stop(Stop::Syntax, x)),
        PartInParentheses::Query(x) => Err(drop_and_stop(Stop::Syntax, x)),
    }
}
