//! What is written behind an assertion or a constraint.

ghost use Rattle.std.specs.Prelude.{true};
ghost use Rattle.syntax.specs.SchemaReaders as reader;
ghost use Rattle.token.specs.declared.kinds.Kind.TheVariants as k;
ghost use Rattle.syntax.specs.Reading as rd;
ghost use Rattle.leaf_parser.specs.Reads.{Reads};

use crate::statements::parse_check_time;
use leaf_parser::{Cursor, Stop};
use syntax::{Attributes, Mode};
use token::Kind;

/// `INITIALLY (DEFERRED | IMMEDIATE)`
#[tactic(auto, unfolding(syntax::specs::SchemaReaders::initially))]
fn parse_initially(cursor: &mut Cursor<'_>) -> Result<Mode, Stop>
    ensures { Reads (reader.initially cursor.old) result cursor.new }
{
    cursor.expect(Kind::Initially)?;
    parse_check_time(cursor)
}

/// `[NOT] DEFERRABLE`
#[tactic(auto, unfolding(syntax::specs::SchemaReaders::deferrable))]
fn parse_deferrable(cursor: &mut Cursor<'_>) -> Result<bool, Stop>
    ensures { Reads (reader.deferrable cursor.old) result cursor.new }
{
    match cursor.peek() {
        Kind::Deferrable => {
            cursor.take(Kind::Deferrable);
            Ok(true)
        }
        Kind::Not => {
            cursor.take(Kind::Not);
            cursor.expect(Kind::Deferrable)?;
            Ok(false)
        }
        _ => Err(Stop::Syntax),
    }
}

/// `[ [NOT] DEFERRABLE ]`
#[tactic(auto, unfolding(syntax::specs::SchemaReaders::may_defer))]
fn parse_may_defer(cursor: &mut Cursor<'_>) -> Result<Option<bool>, Stop>
    ensures { Reads (reader.may_defer cursor.old) result cursor.new }
{
    match cursor.peek() {
        Kind::Deferrable | Kind::Not => Ok(Some(parse_deferrable(cursor)?)),
        _ => Ok(None),
    }
}

/// `[ INITIALLY (DEFERRED | IMMEDIATE) ]`
fn parse_may_begin(cursor: &mut Cursor<'_>) -> Result<Option<Mode>, Stop>
    ensures { Reads (rd.optional k.Initially reader.initially cursor.old) result cursor.new }
{
    if !cursor.is(Kind::Initially) {
        return Ok(None);
    }
    Ok(Some(parse_initially(cursor)?))
}

/// `when [defer]`
#[tactic(auto, unfolding(syntax::specs::SchemaReaders::initially_first))]
fn parse_initially_first(cursor: &mut Cursor<'_>) -> Result<Attributes, Stop>
    ensures { Reads (reader.initially_first cursor.old) result cursor.new }
{
    let mode = parse_initially(cursor)?;
    let deferrable = parse_may_defer(cursor)?;
    Ok(Attributes {
        initially: Some(mode),
        deferrable,
    })
}

/// `defer [when]`
#[tactic(auto, unfolding(syntax::specs::SchemaReaders::deferrable_first))]
fn parse_deferrable_first(cursor: &mut Cursor<'_>) -> Result<Attributes, Stop>
    ensures { Reads (reader.deferrable_first cursor.old) result cursor.new }
{
    let may = parse_deferrable(cursor)?;
    let initially = parse_may_begin(cursor)?;
    Ok(Attributes {
        initially,
        deferrable: Some(may),
    })
}

/// `[ when [defer] | defer [when] ]`
#[tactic(auto, unfolding(syntax::specs::SchemaReaders::attributes))]
pub fn parse_attributes(cursor: &mut Cursor<'_>) -> Result<Attributes, Stop>
    ensures { Reads (reader.attributes cursor.old) result cursor.new }
{
    match cursor.peek() {
        Kind::Initially => parse_initially_first(cursor),
        Kind::Deferrable | Kind::Not => parse_deferrable_first(cursor),
        _ => Ok(Attributes {
            initially: None,
            deferrable: None,
        }),
    }
}

/// `[DEFERRABLE]`, behind a column's constraint, whose first mode is read.
fn parse_may_be_deferrable(cursor: &mut Cursor<'_>) -> Result<Option<bool>, Stop>
    ensures { Reads
        (rd.optional k.Deferrable (rd.◌>>◌ (rd.expect k.Deferrable) (rd.pure true)) cursor.old) result cursor.new }
{
    if !cursor.is(Kind::Deferrable) {
        return Ok(None);
    }
    cursor.expect(Kind::Deferrable)?;
    Ok(Some(true))
}

/// `when [DEFERRABLE]`
#[tactic(auto, unfolding(syntax::specs::SchemaReaders::column_initially_first))]
fn parse_column_initially_first(cursor: &mut Cursor<'_>) -> Result<Attributes, Stop>
    ensures { Reads (reader.column_initially_first cursor.old) result cursor.new }
{
    let mode = parse_initially(cursor)?;
    let deferrable = parse_may_be_deferrable(cursor)?;
    Ok(Attributes {
        initially: Some(mode),
        deferrable,
    })
}

/// `DEFERRABLE [when]`
#[tactic(auto, unfolding(syntax::specs::SchemaReaders::column_deferrable_first))]
fn parse_column_deferrable_first(cursor: &mut Cursor<'_>) -> Result<Attributes, Stop>
    ensures { Reads (reader.column_deferrable_first cursor.old) result cursor.new }
{
    cursor.expect(Kind::Deferrable)?;
    let initially = parse_may_begin(cursor)?;
    Ok(Attributes {
        initially,
        deferrable: Some(true),
    })
}

/// `[ when [DEFERRABLE] | DEFERRABLE [when] ]`, behind a column's constraint: NOT begins NOT NULL there.
#[tactic(auto, unfolding(syntax::specs::SchemaReaders::column_attributes))]
pub fn parse_column_attributes(cursor: &mut Cursor<'_>) -> Result<Attributes, Stop>
    ensures { Reads (reader.column_attributes cursor.old) result cursor.new }
{
    match cursor.peek() {
        Kind::Initially => parse_column_initially_first(cursor),
        Kind::Deferrable => parse_column_deferrable_first(cursor),
        _ => Ok(Attributes {
            initially: None,
            deferrable: None,
        }),
    }
}
