//! Whole texts: a reader, and nothing behind it.

ghost use Rattle.std.specs.Prelude.{◌≡◌, [], map, length};
ghost use Rattle.syntax.specs.StatementReaders as event;
ghost use Rattle.syntax.specs.SchemaReaders as schema;
ghost use Rattle.syntax.specs.Reading as rd;
ghost use Rattle.syntax.specs.Lexemes.{lexeme, place};
ghost use Rattle.leaf_parser.specs.Reads.{Collects, Reads};
ghost use Rattle.parse.specs.Told.{IsOutcomeAs, IsOutcomeIn};
ghost use Rattle.parse.specs.Told as spec;

use crate::events::parse_event;
use crate::schemas::collect_definitions;
use crate::scripts::parse_script;
use leaf_parser::{Collection, Cursor, Stop};
use sqlite_items::Items;
use std::alloc::Global;
use syntax::{Definition, Event, ScriptLine};
use token::Token;
use value::Refusal;

/// The refusal of a text at which the parser stopped, at the next token or the end.
fn refusal_of(stop: Stop, cursor: &Cursor<'_>, end: usize) -> Refusal
    ensures { result ≡ spec.refusal_of (place end cursor.now) stop }
{
    let at = cursor.place(end);
    match stop {
        Stop::Memory => Refusal::NoMemory,
        Stop::Syntax => Refusal::Syntax { at },
        Stop::Depth => Refusal::TooDeep { at },
    }
}

/// What was found, if nothing is left.
fn expect_end<T: Drop>(cursor: &mut Cursor<'_>, found: T) -> Result<T, Stop>
    ensures { Reads (rd.at_end found cursor.old) result cursor.new }
{
    if cursor.is_empty() {
        Ok(found)
    } else {
        Err(Stop::Syntax)
    }
}

fn parse_whole_event(alloc: Global, cursor: &mut Cursor<'_>, depth: usize) -> Result<Event, Stop>
    ensures { Reads (rd.whole (event.one_event depth) cursor.old) result cursor.new }
{
    let found = parse_event(alloc, cursor, depth)?;
    expect_end(cursor, found)
}

#[tactic(auto, using(crate::proofs::Telling::ended))]
fn collect_whole_schema<C: Collection<Definition>>(
    alloc: Global,
    cursor: &mut Cursor<'_>,
    depth: usize,
    into: C,
) -> Result<C, Stop>
    requires { C.made_of into [] }
    ensures { Collects C.made_of (rd.whole (schema.definitions depth) cursor.old) result cursor.new }
{
    let found = collect_definitions(alloc, cursor, depth, into)?;
    expect_end(cursor, found)
}

fn parse_whole_script(
    alloc: Global,
    cursor: &mut Cursor<'_>,
    depth: usize,
) -> Result<Items<ScriptLine>, Stop>
    ensures { Reads (rd.whole (schema.script depth) cursor.old) result cursor.new }
{
    let found = parse_script(alloc, cursor, depth)?;
    expect_end(cursor, found)
}

/// The event of these tokens, where so many parentheses may be open.
#[tactic(auto, using(crate::proofs::Telling::stops_told))]
pub fn event_of(
    alloc: Global,
    text: &[u8],
    tokens: &[Token],
    depth: usize,
) -> Result<Event, Refusal>
    ensures { IsOutcomeAs (rd.whole (event.one_event depth) (map (lexeme text.now) tokens.now))
        (length text.now) result }
{
    let mut cursor = Cursor::new(text, tokens);
    match parse_whole_event(alloc, &mut cursor, depth) {
        Ok(found) => Ok(found),
        Err(stop) => Err(refusal_of(stop, &cursor, text.len())),
    }
}

/// What comes of the definitions of these tokens, where so many parentheses may be open.
#[tactic(auto, using(crate::proofs::Telling::stops_told))]
pub fn schema_of<C: Collection<Definition>>(
    alloc: Global,
    text: &[u8],
    tokens: &[Token],
    depth: usize,
    into: C,
) -> Result<C, Refusal>
    requires { C.made_of into [] }
    ensures { IsOutcomeIn C.made_of (rd.whole (schema.definitions depth) (map (lexeme text.now) tokens.now))
        (length text.now) result }
{
    let mut cursor = Cursor::new(text, tokens);
    match collect_whole_schema(alloc, &mut cursor, depth, into) {
        Ok(found) => Ok(found),
        Err(stop) => Err(refusal_of(stop, &cursor, text.len())),
    }
}

/// The lines of a script of these tokens, where so many parentheses may be open.
#[tactic(auto, using(crate::proofs::Telling::stops_told))]
pub fn script_of(
    alloc: Global,
    text: &[u8],
    tokens: &[Token],
    depth: usize,
) -> Result<Items<ScriptLine>, Refusal>
    ensures { IsOutcomeAs (rd.whole (schema.script depth) (map (lexeme text.now) tokens.now)) (length text.now) result }
{
    let mut cursor = Cursor::new(text, tokens);
    match parse_whole_script(alloc, &mut cursor, depth) {
        Ok(found) => Ok(found),
        Err(stop) => Err(refusal_of(stop, &cursor, text.len())),
    }
}
