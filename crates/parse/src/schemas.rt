//! Definitions.

ghost use Rattle.std.specs.Prelude.{◌-◌, []};
ghost use Rattle.syntax.specs.Readers as condition;
ghost use Rattle.syntax.specs.SchemaReaders as reader;
ghost use Rattle.syntax.specs.Reading as rd;
ghost use Rattle.leaf_parser.specs.Reads.{Collects, Reads};

use crate::attributes::parse_attributes;
use crate::inserts::parse_insert;
use crate::tables::parse_table;
use condition_parser::parse_condition;
use leaf_parser::{
    Collection, Cursor, NamePart, Part, RepeatedPart, Stop, collect_many, drop_and_stop,
    expect_after, parse_name, parse_parens,
};
use sqlite_items::Boxed;
use std::alloc::Global;
use syntax::{Condition, Definition};
use token::Kind;

/// A condition, where so many parentheses may be opened.
#[derive(Drop)]
struct CheckedCondition {
    alloc: Global,
    depth: usize,
}

impl Part for CheckedCondition {
    ghost use Rattle.syntax.specs.Readers as condition;

    type Tree = Boxed<Condition>;

    ghost ready = { λ _. Unit {0} };

    ghost reader = { λ c. condition.cond_at c.depth };

    fn parse(&self, cursor: &mut Cursor<'_>) -> Result<Boxed<Condition>, Stop> {
        parse_condition(self.alloc, cursor, self.depth)
    }
}

/// `"(" cond ")"`
pub fn parse_parens_condition(
    alloc: Global,
    cursor: &mut Cursor<'_>,
    depth: usize,
) -> Result<Boxed<Condition>, Stop>
    ensures { Reads (rd.parens depth (condition.cond_at (depth - 1)) cursor.old) result cursor.new }
{
    let checked = CheckedCondition {
        alloc,
        depth: depth.saturating_sub(1),
    };
    parse_parens(&checked, cursor, depth)
}

/// `ASSERTION name CHECK "(" cond ")" [attrs]`
#[tactic(auto, unfolding(syntax::specs::SchemaReaders::assertion))]
fn parse_assertion(alloc: Global, cursor: &mut Cursor<'_>, depth: usize) -> Result<Definition, Stop>
    ensures { Reads (reader.assertion depth cursor.old) result cursor.new }
{
    cursor.expect(Kind::Assertion)?;
    let name = parse_name(alloc, cursor)?;
    cursor.expect(Kind::Check)?;
    let condition = parse_parens_condition(alloc, cursor, depth)?;
    match parse_attributes(cursor) {
        Ok(attributes) => Ok(Definition::Assertion {
            name,
            condition: condition.into_inner(),
            attributes,
        }),
        Err(stop) => Err(drop_and_stop(stop, (name, condition))),
    }
}

/// `INDEX name ON name "(" name ")"`
#[tactic(auto, unfolding(syntax::specs::SchemaReaders::index))]
fn parse_index(alloc: Global, cursor: &mut Cursor<'_>, depth: usize) -> Result<Definition, Stop>
    ensures { Reads (reader.index depth cursor.old) result cursor.new }
{
    cursor.expect_word(b"INDEX")?;
    let name = parse_name(alloc, cursor)?;
    cursor.expect(Kind::On)?;
    let table = parse_name(alloc, cursor)?;
    let column = parse_parens(&NamePart(alloc), cursor, depth)?;
    Ok(Definition::Index {
        name,
        table,
        column,
    })
}

/// What follows CREATE.
#[tactic(auto, unfolding(syntax::specs::SchemaReaders::created))]
fn parse_created(alloc: Global, cursor: &mut Cursor<'_>, depth: usize) -> Result<Definition, Stop>
    ensures { Reads (reader.created depth cursor.old) result cursor.new }
{
    match cursor.peek() {
        Kind::Table => parse_table(alloc, cursor, depth),
        Kind::Assertion => parse_assertion(alloc, cursor, depth),
        Kind::Name => parse_index(alloc, cursor, depth),
        _ => Err(Stop::Syntax),
    }
}

/// `CREATE TABLE .. | CREATE ASSERTION .. | CREATE INDEX .. | INSERT ..`
#[tactic(auto, unfolding(syntax::specs::SchemaReaders::definition))]
fn parse_definition(
    alloc: Global,
    cursor: &mut Cursor<'_>,
    depth: usize,
) -> Result<Definition, Stop>
    ensures { Reads (reader.definition depth cursor.old) result cursor.new }
{
    match cursor.peek() {
        Kind::Create => {
            cursor.take(Kind::Create);
            parse_created(alloc, cursor, depth)
        }
        _ => Ok(Definition::Insert(parse_insert(alloc, cursor, depth)?)),
    }
}

/// `def ";"`, where so many parentheses may be opened.
#[derive(Drop)]
struct EndedDefinition {
    alloc: Global,
    depth: usize,
}

impl Part for EndedDefinition {
    ghost use Rattle.syntax.specs.SchemaReaders as reader;

    type Tree = Definition;

    ghost ready = { λ _. Unit {0} };

    ghost reader = { λ d. reader.ended_definition d.depth };

    #[tactic(auto, unfolding(syntax::specs::SchemaReaders::ended_definition))]
    fn parse(&self, cursor: &mut Cursor<'_>) -> Result<Definition, Stop> {
        let found = parse_definition(self.alloc, cursor, self.depth)?;
        expect_after(cursor, Kind::Semicolon, found)
    }
}

impl RepeatedPart for EndedDefinition {
    ghost use Rattle.syntax.specs.SchemaReaders as reader;

    ghost begins = { reader.starts_definition };

    fn begins(&self, kind: Kind) -> bool {
        matches!(kind, Kind::Create | Kind::Insert)
    }
}

/// What comes of `{ def ";" }`, of which each is put in as soon as it is read.
#[tactic(auto, unfolding(syntax::specs::SchemaReaders::definitions))]
pub fn collect_definitions<C: Collection<Definition>>(
    alloc: Global,
    cursor: &mut Cursor<'_>,
    depth: usize,
    into: C,
) -> Result<C, Stop>
    requires { C.made_of into [] }
    ensures { Collects C.made_of (reader.definitions depth cursor.old) result cursor.new }
{
    collect_many(&EndedDefinition { alloc, depth }, cursor, into)
}
