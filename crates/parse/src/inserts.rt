//! INSERT.

ghost use Rattle.syntax.specs.StatementGrammar as grammar;
ghost use Rattle.syntax.specs.StatementReaders as reader;
ghost use Rattle.token.specs.declared.kinds.Kind.TheVariants as k;
ghost use Rattle.syntax.specs.Reading as rd;
ghost use Rattle.leaf_parser.specs.Reads.{Reads};

use leaf_parser::{
    Cursor, NamePart, Part, Stop, drop_and_stop, parse_list, parse_name, parse_parens_list,
    parse_signed_number, parse_text,
};
use sqlite_items::Items;
use std::alloc::Global;
use syntax::Insert;
use token::Kind;
use value::{Text, Value};

/// A number, whose sign is read.
fn parse_number(cursor: &mut Cursor<'_>, is_negative: bool) -> Result<Value, Stop>
    ensures { Reads (rd.◌<$>◌ (grammar.number_of is_negative) (rd.expect k.Number) cursor.old) result cursor.new }
{
    Ok(Value::Int(parse_signed_number(cursor, is_negative)?))
}

/// `NULL | text | [sign] number`
#[derive(Drop)]
struct Constant(Global);

impl Part for Constant {
    ghost use Rattle.syntax.specs.StatementReaders as reader;

    type Tree = Value;

    ghost ready = { λ _. Unit {0} };

    ghost reader = { λ _. reader.constant };

    #[tactic(auto, unfolding(syntax::specs::StatementReaders::constant))]
    fn parse(&self, cursor: &mut Cursor<'_>) -> Result<Value, Stop> {
        match cursor.peek() {
            Kind::Null => {
                cursor.take(Kind::Null);
                Ok(Value::Null)
            }
            Kind::Text => Ok(Value::Text(parse_text(self.0, cursor)?)),
            Kind::Number => parse_number(cursor, false),
            Kind::Plus => {
                cursor.take(Kind::Plus);
                parse_number(cursor, false)
            }
            Kind::Minus => {
                cursor.take(Kind::Minus);
                parse_number(cursor, true)
            }
            _ => Err(Stop::Syntax),
        }
    }
}

/// `"(" const { "," const } ")"`, where so many parentheses may be opened.
#[derive(Drop)]
struct RowValue {
    alloc: Global,
    depth: usize,
}

impl Part for RowValue {
    ghost use Rattle.syntax.specs.StatementReaders as reader;

    type Tree = Items<Value>;

    ghost ready = { λ _. Unit {0} };

    ghost reader = { λ r. reader.row_value r.depth };

    #[tactic(auto, unfolding(syntax::specs::StatementReaders::row_value))]
    fn parse(&self, cursor: &mut Cursor<'_>) -> Result<Items<Value>, Stop> {
        parse_parens_list(self.alloc, &Constant(self.alloc), cursor, self.depth)
    }
}

/// `[ "(" name { "," name } ")" ]`
#[tactic(auto, unfolding(syntax::specs::StatementReaders::columns))]
fn parse_columns(
    alloc: Global,
    cursor: &mut Cursor<'_>,
    depth: usize,
) -> Result<Option<Items<Text>>, Stop>
    ensures { Reads (reader.columns depth cursor.old) result cursor.new }
{
    if !cursor.is(Kind::Open) {
        return Ok(None);
    }
    Ok(Some(parse_parens_list(alloc, &NamePart(alloc), cursor, depth)?))
}

/// `INSERT INTO name [ "(" name { "," name } ")" ] VALUES row { "," row }`
#[tactic(auto, unfolding(syntax::specs::StatementReaders::insert))]
pub fn parse_insert(alloc: Global, cursor: &mut Cursor<'_>, depth: usize) -> Result<Insert, Stop>
    ensures { Reads (reader.insert depth cursor.old) result cursor.new }
{
    cursor.expect(Kind::Insert)?;
    cursor.expect(Kind::Into)?;
    let table = parse_name(alloc, cursor)?;
    let columns = parse_columns(alloc, cursor, depth)?;
    cursor.expect(Kind::Values)?;
    match parse_list(alloc, &RowValue { alloc, depth }, cursor) {
        Ok(rows) => Ok(Insert {
            table,
            columns,
            rows,
        }),
        Err(stop) => Err(drop_and_stop(stop, (table, columns))),
    }
}
