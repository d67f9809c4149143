//! Events.

ghost use Rattle.syntax.specs.StatementReaders as reader;
ghost use Rattle.token.specs.declared.kinds.Kind.TheVariants as k;
ghost use Rattle.syntax.specs.Reading as rd;
ghost use Rattle.leaf_parser.specs.Reads.{Reads};

use crate::statements::parse_statement;
use leaf_parser::{Cursor, Stop};
use std::alloc::Global;
use syntax::Event;
use token::Kind;

/// `[READ ONLY]`, behind BEGIN.
#[tactic(auto, unfolding(syntax::specs::StatementReaders::access))]
fn parse_access(cursor: &mut Cursor<'_>) -> Result<Event, Stop>
    ensures { Reads (reader.access cursor.old) result cursor.new }
{
    if !cursor.is(Kind::Read) {
        return Ok(Event::Begin);
    }
    cursor.expect(Kind::Read)?;
    cursor.expect(Kind::Only)?;
    Ok(Event::BeginReadOnly)
}

/// `[WORK]`, behind COMMIT.
fn parse_commit(cursor: &mut Cursor<'_>) -> Result<Event, Stop>
    ensures { Reads (rd.◌<$>◌ (λ _. Event.Commit) (rd.optional k.Work (rd.expect k.Work)) cursor.old) result
        cursor.new }
{
    if cursor.is(Kind::Work) {
        cursor.expect(Kind::Work)?;
    }
    Ok(Event::Commit)
}

/// `[WORK]`, behind ROLLBACK.
fn parse_rollback(cursor: &mut Cursor<'_>) -> Result<Event, Stop>
    ensures { Reads (rd.◌<$>◌ (λ _. Event.Rollback) (rd.optional k.Work (rd.expect k.Work)) cursor.old) result
        cursor.new }
{
    if cursor.is(Kind::Work) {
        cursor.expect(Kind::Work)?;
    }
    Ok(Event::Rollback)
}

/// `BEGIN [READ ONLY] | COMMIT [WORK] | ROLLBACK [WORK] | stmt`
#[tactic(auto, unfolding(syntax::specs::StatementReaders::one_event))]
pub fn parse_event(alloc: Global, cursor: &mut Cursor<'_>, depth: usize) -> Result<Event, Stop>
    ensures { Reads (reader.one_event depth cursor.old) result cursor.new }
{
    match cursor.peek() {
        Kind::Begin => {
            cursor.take(Kind::Begin);
            parse_access(cursor)
        }
        Kind::Commit => {
            cursor.take(Kind::Commit);
            parse_commit(cursor)
        }
        Kind::Rollback => {
            cursor.take(Kind::Rollback);
            parse_rollback(cursor)
        }
        _ => Ok(Event::Run(parse_statement(alloc, cursor, depth)?)),
    }
}
