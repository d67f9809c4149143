//! Statements.

ghost use Rattle.syntax.specs.StatementReaders as reader;
ghost use Rattle.leaf_parser.specs.Reads.{Reads};

use crate::inserts::parse_insert;
use condition_parser::{parse_condition, parse_expression};
use leaf_parser::{
    Cursor, NamePart, Part, Stop, drop_and_stop, expect_after, parse_column,
    parse_correlation_name, parse_list, parse_name,
};
use sqlite_items::{Boxed, Items};
use std::alloc::Global;
use syntax::{
    Assignment, ColumnName, Condition, DerivedColumn, Mode, Select, Statement, UpdateSource, Which,
};
use token::Kind;
use value::Text;

/// `DEFERRED | IMMEDIATE`
#[tactic(auto, unfolding(syntax::specs::StatementReaders::check_time))]
pub fn parse_check_time(cursor: &mut Cursor<'_>) -> Result<Mode, Stop>
    ensures { Reads (reader.check_time cursor.old) result cursor.new }
{
    match cursor.peek() {
        Kind::Deferred => {
            cursor.take(Kind::Deferred);
            Ok(Mode::Deferred)
        }
        Kind::Immediate => {
            cursor.take(Kind::Immediate);
            Ok(Mode::Immediate)
        }
        _ => Err(Stop::Syntax),
    }
}

/// `ALL | name { "," name }`
#[tactic(auto, unfolding(syntax::specs::StatementReaders::constraints))]
fn parse_constraints(alloc: Global, cursor: &mut Cursor<'_>) -> Result<Which, Stop>
    ensures { Reads (reader.constraints cursor.old) result cursor.new }
{
    match cursor.peek() {
        Kind::All => {
            cursor.take(Kind::All);
            Ok(Which::All)
        }
        _ => Ok(Which::Names(parse_list(alloc, &NamePart(alloc), cursor)?)),
    }
}

/// `SET CONSTRAINTS (ALL | name { "," name }) (DEFERRED | IMMEDIATE)`
#[tactic(auto, unfolding(syntax::specs::StatementReaders::set_constraints))]
fn parse_set_constraints(alloc: Global, cursor: &mut Cursor<'_>) -> Result<Statement, Stop>
    ensures { Reads (reader.set_constraints cursor.old) result cursor.new }
{
    cursor.expect(Kind::Set)?;
    cursor.expect(Kind::Constraints)?;
    let assertions = parse_constraints(alloc, cursor)?;
    let mode = parse_check_time(cursor)?;
    Ok(Statement::SetConstraints { assertions, mode })
}

/// `VERDICT name`
#[tactic(auto, unfolding(syntax::specs::StatementReaders::verdict))]
fn parse_verdict(alloc: Global, cursor: &mut Cursor<'_>) -> Result<Statement, Stop>
    ensures { Reads (reader.verdict cursor.old) result cursor.new }
{
    cursor.expect(Kind::Verdict)?;
    let name = parse_name(alloc, cursor)?;
    Ok(Statement::Verdict(name))
}

/// `[WHERE cond]`
#[tactic(auto, unfolding(syntax::specs::StatementReaders::where_clause))]
fn parse_where(
    alloc: Global,
    cursor: &mut Cursor<'_>,
    depth: usize,
) -> Result<Option<Boxed<Condition>>, Stop>
    ensures { Reads (reader.where_clause depth cursor.old) result cursor.new }
{
    if !cursor.is(Kind::Where) {
        return Ok(None);
    }
    cursor.expect(Kind::Where)?;
    Ok(Some(parse_condition(alloc, cursor, depth)?))
}

/// `NULL | expr`
#[tactic(auto, unfolding(syntax::specs::StatementReaders::assigned))]
fn parse_assigned(
    alloc: Global,
    cursor: &mut Cursor<'_>,
    depth: usize,
) -> Result<UpdateSource, Stop>
    ensures { Reads (reader.assigned depth cursor.old) result cursor.new }
{
    match cursor.peek() {
        Kind::Null => {
            cursor.take(Kind::Null);
            Ok(UpdateSource::Null)
        }
        _ => Ok(UpdateSource::To(parse_expression(alloc, cursor, depth)?)),
    }
}

/// `name "=" (NULL | expr)`, where so many parentheses may be opened.
#[derive(Drop)]
struct SetClause {
    alloc: Global,
    depth: usize,
}

impl Part for SetClause {
    ghost use Rattle.syntax.specs.StatementReaders as reader;

    type Tree = Assignment;

    ghost ready = { λ _. Unit {0} };

    ghost reader = { λ a. reader.assignment a.depth };

    #[tactic(auto, unfolding(syntax::specs::StatementReaders::assignment))]
    fn parse(&self, cursor: &mut Cursor<'_>) -> Result<Assignment, Stop> {
        let column = parse_name(self.alloc, cursor)?;
        cursor.expect(Kind::Equal)?;
        let value = parse_assigned(self.alloc, cursor, self.depth)?;
        Ok(Assignment { column, value })
    }
}

/// `UPDATE name SET set { "," set } [WHERE cond]`
#[tactic(auto, unfolding(syntax::specs::StatementReaders::update))]
fn parse_update(alloc: Global, cursor: &mut Cursor<'_>, depth: usize) -> Result<Statement, Stop>
    ensures { Reads (reader.update depth cursor.old) result cursor.new }
{
    cursor.expect(Kind::Update)?;
    let table = parse_name(alloc, cursor)?;
    cursor.expect(Kind::Set)?;
    let sets = match parse_list(alloc, &SetClause { alloc, depth }, cursor) {
        Ok(sets) => sets,
        Err(stop) => return Err(drop_and_stop(stop, table)),
    };
    match parse_where(alloc, cursor, depth) {
        Ok(keeps) => Ok(Statement::Update { table, sets, keeps }),
        Err(stop) => Err(drop_and_stop(stop, (table, sets))),
    }
}

/// `DELETE FROM name [WHERE cond]`
#[tactic(auto, unfolding(syntax::specs::StatementReaders::delete))]
fn parse_delete(alloc: Global, cursor: &mut Cursor<'_>, depth: usize) -> Result<Statement, Stop>
    ensures { Reads (reader.delete depth cursor.old) result cursor.new }
{
    cursor.expect(Kind::Delete)?;
    cursor.expect(Kind::From)?;
    let table = parse_name(alloc, cursor)?;
    let keeps = parse_where(alloc, cursor, depth)?;
    Ok(Statement::Delete { table, keeps })
}

/// A derived column: `expr [ [AS] name ]`, where so many parentheses may be opened.
#[derive(Drop)]
struct DerivedColumnPart {
    alloc: Global,
    depth: usize,
}

impl Part for DerivedColumnPart {
    ghost use Rattle.syntax.specs.StatementReaders as reader;

    type Tree = DerivedColumn;

    ghost ready = { λ _. Unit {0} };

    ghost reader = { λ d. reader.derived_column d.depth };

    #[tactic(auto, unfolding(syntax::specs::StatementReaders::derived_column))]
    fn parse(&self, cursor: &mut Cursor<'_>) -> Result<DerivedColumn, Stop> {
        let value = parse_expression(self.alloc, cursor, self.depth)?;
        match parse_correlation_name(self.alloc, cursor) {
            Ok(name) => Ok(DerivedColumn { value, name }),
            Err(stop) => Err(drop_and_stop(stop, value)),
        }
    }
}

/// `"*" | item { "," item }`
#[tactic(auto, unfolding(syntax::specs::StatementReaders::selected))]
fn parse_selected(
    alloc: Global,
    cursor: &mut Cursor<'_>,
    depth: usize,
) -> Result<Option<Items<DerivedColumn>>, Stop>
    ensures { Reads (reader.selected depth cursor.old) result cursor.new }
{
    match cursor.peek() {
        Kind::Star => {
            cursor.take(Kind::Star);
            Ok(None)
        }
        _ => Ok(Some(parse_list(alloc, &DerivedColumnPart { alloc, depth }, cursor)?)),
    }
}

/// A column of GROUP BY: `colref`.
#[derive(Drop)]
struct GroupingColumn(Global);

impl Part for GroupingColumn {
    ghost use Rattle.syntax.specs.Readers.{column};

    type Tree = ColumnName;

    ghost ready = { λ _. Unit {0} };

    ghost reader = { λ _. column };

    fn parse(&self, cursor: &mut Cursor<'_>) -> Result<ColumnName, Stop> {
        parse_column(self.0, cursor)
    }
}

/// `[GROUP BY colref { "," colref }]`
#[tactic(auto, unfolding(syntax::specs::StatementReaders::group_by))]
fn parse_grouping_columns(
    alloc: Global,
    cursor: &mut Cursor<'_>,
) -> Result<Option<Items<ColumnName>>, Stop>
    ensures { Reads (reader.group_by cursor.old) result cursor.new }
{
    if !cursor.is(Kind::Group) {
        return Ok(None);
    }
    cursor.expect(Kind::Group)?;
    cursor.expect(Kind::By)?;
    Ok(Some(parse_list(alloc, &GroupingColumn(alloc), cursor)?))
}

/// `[HAVING cond]`
#[tactic(auto, unfolding(syntax::specs::StatementReaders::having))]
fn parse_having(
    alloc: Global,
    cursor: &mut Cursor<'_>,
    depth: usize,
) -> Result<Option<Boxed<Condition>>, Stop>
    ensures { Reads (reader.having depth cursor.old) result cursor.new }
{
    if !cursor.is(Kind::Having) {
        return Ok(None);
    }
    cursor.expect(Kind::Having)?;
    Ok(Some(parse_condition(alloc, cursor, depth)?))
}

/// A table reference: `name [ [AS] name ]`.
#[derive(Drop)]
struct TableReference {
    table: Text,
    correlation_name: Option<Text>,
}

/// What the rows of a SELECT are: `[WHERE cond] [GROUP BY colref { "," colref }] [HAVING cond]`
#[tactic(auto, unfolding(syntax::specs::StatementReaders::selected_rows))]
fn parse_selected_rows(
    alloc: Global,
    cursor: &mut Cursor<'_>,
    depth: usize,
    columns: Option<Items<DerivedColumn>>,
    from: TableReference,
) -> Result<Select, Stop>
    ensures { Reads (reader.selected_rows depth columns from.table from.correlation_name cursor.old) result cursor.new }
{
    let keeps = match parse_where(alloc, cursor, depth) {
        Ok(keeps) => keeps,
        Err(stop) => return Err(drop_and_stop(stop, (columns, from))),
    };
    let group_by = match parse_grouping_columns(alloc, cursor) {
        Ok(group_by) => group_by,
        Err(stop) => return Err(drop_and_stop(stop, (columns, from, keeps))),
    };
    match parse_having(alloc, cursor, depth) {
        Ok(having) => Ok(Select {
            columns,
            table: from.table,
            correlation_name: from.correlation_name,
            keeps,
            group_by,
            having,
        }),
        Err(stop) => Err(drop_and_stop(stop, (columns, from, keeps, group_by))),
    }
}

/// `SELECT ("*" | item { "," item }) FROM name [ [AS] name ]`, and what its rows are.
#[tactic(auto, unfolding(syntax::specs::StatementReaders::select))]
fn parse_select(alloc: Global, cursor: &mut Cursor<'_>, depth: usize) -> Result<Select, Stop>
    ensures { Reads (reader.select depth cursor.old) result cursor.new }
{
    cursor.expect(Kind::Select)?;
    let listed = parse_selected(alloc, cursor, depth)?;
    let columns = expect_after(cursor, Kind::From, listed)?;
    let table = match parse_name(alloc, cursor) {
        Ok(table) => table,
        Err(stop) => return Err(drop_and_stop(stop, columns)),
    };
    match parse_correlation_name(alloc, cursor) {
        Ok(correlation_name) => {
            let from = TableReference {
                table,
                correlation_name,
            };
            parse_selected_rows(alloc, cursor, depth, columns, from)
        }
        Err(stop) => Err(drop_and_stop(stop, (columns, table))),
    }
}

/// A statement.
#[tactic(auto, unfolding(syntax::specs::StatementReaders::statement))]
pub fn parse_statement(
    alloc: Global,
    cursor: &mut Cursor<'_>,
    depth: usize,
) -> Result<Statement, Stop>
    ensures { Reads (reader.statement depth cursor.old) result cursor.new }
{
    match cursor.peek() {
        Kind::Insert => Ok(Statement::Insert(parse_insert(alloc, cursor, depth)?)),
        Kind::Update => parse_update(alloc, cursor, depth),
        Kind::Delete => parse_delete(alloc, cursor, depth),
        Kind::Select => Ok(Statement::Select(parse_select(alloc, cursor, depth)?)),
        Kind::Set => parse_set_constraints(alloc, cursor),
        Kind::Verdict => parse_verdict(alloc, cursor),
        _ => Err(Stop::Syntax),
    }
}
