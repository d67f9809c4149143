//! The constraints of a table that is created.

ghost use Rattle.std.specs.Prelude.{◌≡◌, ◌-◌, [], ◌∷◌, List, Option, Some, None, ℕ, IfOk};
ghost use Rattle.syntax.specs.Readers as condition;
ghost use Rattle.syntax.specs.SchemaGrammar as grammar;
ghost use Rattle.syntax.specs.SchemaReaders as reader;
ghost use Rattle.token.specs.declared.kinds.Kind.TheVariants as k;
ghost use Rattle.syntax.specs.Reading as rd;
ghost use Rattle.leaf_parser.specs.Reads.{Reads};

use crate::attributes::{parse_attributes, parse_column_attributes};
use crate::schemas::parse_parens_condition;
use leaf_parser::{
    Cursor, NamePart, Stop, drop_and_stop, parse_name, parse_parens, parse_parens_list, start_list,
};
use sqlite_items::{Boxed, Items};
use std::alloc::{AllocError, Global};
use syntax::{Condition, Constraint, ForeignKey, Query, SelectList, TableConstraint};
use token::Kind;
use value::Text;

/// A table that is created, whose constraints are read, and how many parentheses may be opened there.
#[derive(Clone, Copy)]
pub struct ConstrainedTable<'a> {
    pub alloc: Global,
    pub name: &'a Text,
    pub depth: usize,
}

/// `"(" name { "," name } ")"`
#[tactic(auto, unfolding(syntax::specs::SchemaReaders::names))]
pub fn parse_names(
    alloc: Global,
    cursor: &mut Cursor<'_>,
    depth: usize,
) -> Result<Items<Text>, Stop>
    ensures { Reads (reader.names depth cursor.old) result cursor.new }
{
    parse_parens_list(alloc, &NamePart(alloc), cursor, depth)
}

/// `[ "(" name { "," name } ")" ]`
fn parse_may_name(
    alloc: Global,
    cursor: &mut Cursor<'_>,
    depth: usize,
) -> Result<Option<Items<Text>>, Stop>
    ensures { Reads (rd.optional k.Open (reader.names depth) cursor.old) result cursor.new }
{
    if !cursor.is(Kind::Open) {
        return Ok(None);
    }
    Ok(Some(parse_names(alloc, cursor, depth)?))
}

/// `[ "(" name ")" ]`
fn parse_may_name_one(
    alloc: Global,
    cursor: &mut Cursor<'_>,
    depth: usize,
) -> Result<Option<Items<Text>>, Stop>
    ensures { Reads
        (rd.optional k.Open (rd.◌<$>◌ (λ x. x ∷ []) (rd.parens depth condition.name)) cursor.old) result cursor.new }
{
    if !cursor.is(Kind::Open) {
        return Ok(None);
    }
    let name = parse_parens(&NamePart(alloc), cursor, depth)?;
    Ok(Some(start_list(alloc, name, 1)?))
}

/// The condition of a CHECK: that no row of its table makes what is written false.
fn is_false_of_no_row(
    table: &ConstrainedTable<'_>,
    condition: Boxed<Condition>,
) -> Result<Condition, AllocError>
    ensures { IfOk result (λ made. made ≡ grammar.is_false_of_no_row table.now.name.now condition) }
{
    let query = Query {
        select_list: SelectList::Star,
        table: table.name.copy()?,
        correlation_name: None,
        keeps: Some(Condition::Not(condition)),
        group: None,
        having: None,
    };
    let exists = Condition::Exists(Boxed::new(table.alloc, query)?);
    Ok(Condition::Not(Boxed::new(table.alloc, exists)?))
}

/// `CHECK "(" cond ")"`, of the column behind which it stands, if it stands behind one.
#[tactic(auto, unfolding(syntax::specs::SchemaReaders::check))]
fn parse_check(
    cursor: &mut Cursor<'_>,
    table: &ConstrainedTable<'_>,
    column: Option<Text>,
) -> Result<Constraint, Stop>
    ensures { Reads (reader.check table.now.depth table.now.name.now column cursor.old) result cursor.new }
{
    cursor.expect(Kind::Check)?;
    let written = parse_parens_condition(table.alloc, cursor, table.depth)?;
    let condition = is_false_of_no_row(table, written)?;
    Ok(Constraint::Check { column, condition })
}

/// A list of one name.
fn only(alloc: Global, name: &Text) -> Result<Items<Text>, AllocError>
    ensures { IfOk result (λ names. names ≡ name.now ∷ []) }
{
    start_list(alloc, name.copy()?, 1)
}

/// `REFERENCES name [ "(" name ")" ]`, behind a column.
#[tactic(auto, unfolding(syntax::specs::SchemaReaders::references))]
fn parse_references(
    cursor: &mut Cursor<'_>,
    table: &ConstrainedTable<'_>,
    column: &Text,
) -> Result<Constraint, Stop>
    ensures { Reads (reader.references table.now.depth column.now cursor.old) result cursor.new }
{
    cursor.expect(Kind::References)?;
    let other = parse_name(table.alloc, cursor)?;
    let referenced = parse_may_name_one(table.alloc, cursor, table.depth)?;
    let columns = only(table.alloc, column)?;
    Ok(Constraint::ForeignKey(ForeignKey {
        columns,
        table: other,
        referenced,
    }))
}

/// `UNIQUE | CHECK "(" cond ")" | REFERENCES name [ "(" name ")" ]`, behind a column.
#[tactic(auto, unfolding(syntax::specs::SchemaReaders::column_rule))]
fn parse_column_rule(
    cursor: &mut Cursor<'_>,
    table: &ConstrainedTable<'_>,
    column: &Text,
) -> Result<Constraint, Stop>
    ensures { Reads (reader.column_rule table.now.depth table.now.name.now column.now cursor.old) result cursor.new }
{
    match cursor.peek() {
        Kind::Unique => {
            cursor.take(Kind::Unique);
            Ok(Constraint::Unique(only(table.alloc, column)?))
        }
        Kind::Check => parse_check(cursor, table, Some(column.copy()?)),
        _ => parse_references(cursor, table, column),
    }
}

/// `UNIQUE "(" name { "," name } ")"`
#[tactic(auto, unfolding(syntax::specs::SchemaReaders::unique))]
fn parse_unique(cursor: &mut Cursor<'_>, table: &ConstrainedTable<'_>) -> Result<Constraint, Stop>
    ensures { Reads (reader.unique table.now.depth cursor.old) result cursor.new }
{
    cursor.expect(Kind::Unique)?;
    Ok(Constraint::Unique(parse_names(table.alloc, cursor, table.depth)?))
}

/// `FOREIGN KEY names REFERENCES name [names]`
#[tactic(auto, unfolding(syntax::specs::SchemaReaders::foreign))]
fn parse_foreign_key(
    cursor: &mut Cursor<'_>,
    table: &ConstrainedTable<'_>,
) -> Result<Constraint, Stop>
    ensures { Reads (reader.foreign table.now.depth cursor.old) result cursor.new }
{
    cursor.expect(Kind::Foreign)?;
    cursor.expect(Kind::Key)?;
    let columns = parse_names(table.alloc, cursor, table.depth)?;
    cursor.expect(Kind::References)?;
    let other = parse_name(table.alloc, cursor)?;
    let referenced = parse_may_name(table.alloc, cursor, table.depth)?;
    Ok(Constraint::ForeignKey(ForeignKey {
        columns,
        table: other,
        referenced,
    }))
}

/// `UNIQUE names | CHECK "(" cond ")" | FOREIGN KEY names REFERENCES name [names]`
#[tactic(auto, unfolding(syntax::specs::SchemaReaders::table_rule))]
fn parse_table_rule(
    cursor: &mut Cursor<'_>,
    table: &ConstrainedTable<'_>,
) -> Result<Constraint, Stop>
    ensures { Reads (reader.table_rule table.now.depth table.now.name.now cursor.old) result cursor.new }
{
    match cursor.peek() {
        Kind::Unique => parse_unique(cursor, table),
        Kind::Check => parse_check(cursor, table, None),
        _ => parse_foreign_key(cursor, table),
    }
}

/// `[CONSTRAINT name]`
#[tactic(auto, unfolding(syntax::specs::SchemaReaders::constraint_name))]
fn parse_constraint_name(alloc: Global, cursor: &mut Cursor<'_>) -> Result<Option<Text>, Stop>
    ensures { Reads (reader.constraint_name cursor.old) result cursor.new }
{
    if !cursor.is(Kind::Constraint) {
        return Ok(None);
    }
    cursor.expect(Kind::Constraint)?;
    Ok(Some(parse_name(alloc, cursor)?))
}

/// A constraint behind a column: `[CONSTRAINT name] rule [attributes]`
pub fn parse_column_constraint(
    cursor: &mut Cursor<'_>,
    table: &ConstrainedTable<'_>,
    column: &Text,
) -> Result<TableConstraint, Stop>
    ensures { Reads
        (reader.constrained (reader.column_rule table.now.depth table.now.name.now column.now)
        reader.column_attributes cursor.old) result cursor.new }
{
    let name = parse_constraint_name(table.alloc, cursor)?;
    let constraint = match parse_column_rule(cursor, table, column) {
        Ok(constraint) => constraint,
        Err(stop) => return Err(drop_and_stop(stop, name)),
    };
    match parse_column_attributes(cursor) {
        Ok(attributes) => Ok(TableConstraint {
            name,
            constraint,
            attributes,
        }),
        Err(stop) => Err(drop_and_stop(stop, (name, constraint))),
    }
}

/// A constraint on a line of its own: `[CONSTRAINT name] rule [attributes]`
pub fn parse_table_constraint(
    cursor: &mut Cursor<'_>,
    table: &ConstrainedTable<'_>,
) -> Result<TableConstraint, Stop>
    ensures { Reads
        (reader.constrained (reader.table_rule table.now.depth table.now.name.now) reader.attributes cursor.old) result
        cursor.new }
{
    let name = parse_constraint_name(table.alloc, cursor)?;
    let constraint = match parse_table_rule(cursor, table) {
        Ok(constraint) => constraint,
        Err(stop) => return Err(drop_and_stop(stop, name)),
    };
    match parse_attributes(cursor) {
        Ok(attributes) => Ok(TableConstraint {
            name,
            constraint,
            attributes,
        }),
        Err(stop) => Err(drop_and_stop(stop, (name, constraint))),
    }
}
