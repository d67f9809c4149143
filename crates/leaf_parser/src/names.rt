//! Names, numbers and texts.

ghost use Rattle.std.specs.Prelude.{◌≡◌, ◌≤◌, [], ◌∷◌, IfOk};
ghost use Rattle.syntax.specs.Reading as rd;
ghost use Rattle.token.specs.declared.kinds.Kind.TheVariants as k;
ghost use Rattle.token.specs.Spellings.{largest_number};
ghost use Rattle.syntax.specs.Grammar as spec;
ghost use Rattle.syntax.specs.Readers as reader;
ghost use Rattle.leaf_parser.specs.Reads.{Reads};

use crate::cursors::{Cursor, Piece};
use crate::loops::Part;
use crate::stops::Stop;
use sqlite_items::Items;
use std::alloc::{AllocError, Global};
use syntax::Expression;
use token::{Kind, name_bytes, number_value, text_bytes};
use value::Text;

/// A list of one item, with room for so many.
pub fn start_list<T: Drop>(alloc: Global, item: T, room: usize) -> Result<Items<T>, AllocError>
    ensures { IfOk result (λ all. all ≡ item ∷ []) }
{
    let mut all = Vec::with_capacity(alloc, room)?;
    all.push(item)?;
    Ok(Items::from_vec(all))
}

/// The value of a number's digits. A token that is no number may be taken for 0.
#[tactic(auto, unfolding(syntax::specs::Grammar::digits_value), using(crate::proofs::Small::digits_value_small))]
pub fn value_of(piece: &Piece<'_>) -> u64
    ensures value { result ≡ spec.digits_value piece.now }
    ensures small { result ≤ largest_number }
{
    number_value(piece.spelling()).unwrap_or(0)
}

fn with_sign(is_negative: bool, magnitude: u64) -> i64
    requires { magnitude ≤ largest_number }
    ensures { result ≡ spec.signed_number is_negative magnitude }
{
    let number = magnitude as i64;
    if is_negative { -number } else { number }
}

/// A number, whose sign is read.
pub fn parse_signed_number(cursor: &mut Cursor<'_>, is_negative: bool) -> Result<i64, Stop>
    ensures { Reads (rd.◌<$>◌ (λ x. spec.signed_number is_negative (spec.digits_value x))
        (rd.expect k.Number) cursor.old)
        result cursor.new }
{
    let piece = cursor.expect(Kind::Number)?;
    Ok(with_sign(is_negative, value_of(&piece)))
}

/// A number as an expression, whose sign is read.
#[tactic(auto, unfolding(syntax::specs::Readers::number))]
pub fn parse_number(cursor: &mut Cursor<'_>, is_negative: bool) -> Result<Expression, Stop>
    ensures { Reads (reader.number is_negative cursor.old) result cursor.new }
{
    let piece = cursor.expect(Kind::Number)?;
    Ok(Expression::Number(with_sign(is_negative, value_of(&piece))))
}

/// The name that a word spells.
#[tactic(auto, unfolding(syntax::specs::Grammar::name_of))]
pub fn name_of(alloc: Global, piece: &Piece<'_>) -> Result<Text, AllocError>
    ensures { IfOk result (λ name. name ≡ spec.name_of piece.now) }
{
    let bytes = name_bytes(alloc, piece.spelling())?;
    Text::new(bytes)
}

/// A name.
#[tactic(auto, unfolding(syntax::specs::Readers::name))]
pub fn parse_name(alloc: Global, cursor: &mut Cursor<'_>) -> Result<Text, Stop>
    ensures { Reads (reader.name cursor.old) result cursor.new }
{
    let piece = cursor.expect(Kind::Name)?;
    Ok(name_of(alloc, &piece)?)
}

/// A name, as a part of a list.
#[derive(Drop)]
pub struct NamePart(pub Global);

impl Part for NamePart {
    ghost use Rattle.syntax.specs.Readers as reader;

    type Tree = Text;

    ghost ready = { λ _. Unit {0} };

    ghost reader = { λ _. reader.name };

    fn parse(&self, cursor: &mut Cursor<'_>) -> Result<Text, Stop> {
        parse_name(self.0, cursor)
    }
}

#[tactic(auto, unfolding(syntax::specs::Grammar::text_in_quotes))]
fn text_of(alloc: Global, piece: &Piece<'_>) -> Result<Text, AllocError>
    ensures { IfOk result (λ text. text ≡ spec.text_in_quotes piece.now) }
{
    let bytes = text_bytes(alloc, piece.spelling())?;
    Text::new(bytes)
}

/// A text in quotes.
pub fn parse_text(alloc: Global, cursor: &mut Cursor<'_>) -> Result<Text, Stop>
    ensures { Reads (rd.◌<$>◌ spec.text_in_quotes (rd.expect k.Text) cursor.old) result cursor.new }
{
    let piece = cursor.expect(Kind::Text)?;
    Ok(text_of(alloc, &piece)?)
}
