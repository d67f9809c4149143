//! The signs of comparisons, and the truths of IS.

ghost use Rattle.syntax.specs.Readers as reader;
ghost use Rattle.leaf_parser.specs.Reads.{Reads};

use crate::cursors::Cursor;
use crate::stops::Stop;
use token::Kind;
use value::{Comparison, Truth};

/// `=`, `<>`, `<`, `<=`, `>` or `>=`.
#[tactic(auto, unfolding(syntax::specs::Readers::comparison_sign))]
pub fn parse_comparison_sign(cursor: &mut Cursor<'_>) -> Result<Comparison, Stop>
    ensures { Reads (reader.comparison_sign cursor.old) result cursor.new }
{
    match cursor.peek() {
        Kind::Equal => {
            cursor.take(Kind::Equal);
            Ok(Comparison::Equal)
        }
        Kind::NotEqual => {
            cursor.take(Kind::NotEqual);
            Ok(Comparison::NotEqual)
        }
        Kind::Less => {
            cursor.take(Kind::Less);
            Ok(Comparison::Less)
        }
        Kind::AtMost => {
            cursor.take(Kind::AtMost);
            Ok(Comparison::AtMost)
        }
        Kind::Greater => {
            cursor.take(Kind::Greater);
            Ok(Comparison::Greater)
        }
        Kind::AtLeast => {
            cursor.take(Kind::AtLeast);
            Ok(Comparison::AtLeast)
        }
        _ => Err(Stop::Syntax),
    }
}

/// TRUE, FALSE or UNKNOWN.
#[tactic(auto, unfolding(syntax::specs::Readers::truth))]
pub fn parse_truth(cursor: &mut Cursor<'_>) -> Result<Truth, Stop>
    ensures { Reads (reader.truth cursor.old) result cursor.new }
{
    match cursor.peek() {
        Kind::True => {
            cursor.take(Kind::True);
            Ok(Truth::True)
        }
        Kind::False => {
            cursor.take(Kind::False);
            Ok(Truth::False)
        }
        Kind::Unknown => {
            cursor.take(Kind::Unknown);
            Ok(Truth::Unknown)
        }
        _ => Err(Stop::Syntax),
    }
}
