//! The columns of a table that is created.

ghost use Rattle.std.specs.Prelude.{◌≡◌, []};
ghost use Rattle.parse.specs.Widths as spec;
ghost use Rattle.syntax.specs.SchemaGrammar as grammar;
ghost use Rattle.syntax.specs.SchemaReaders as reader;
ghost use Rattle.token.specs.declared.kinds.Kind.TheVariants as k;
ghost use Rattle.syntax.specs.Reading as rd;
ghost use Rattle.leaf_parser.specs.Reads.{Reads};

use crate::constraints::{ConstrainedTable, parse_column_constraint};
use leaf_parser::{
    Cursor, Part, Piece, RepeatedPart, Stop, drop_and_stop, parse_many, parse_name, parse_parens,
    value_of,
};
use sqlite_items::Items;
use std::alloc::Global;
use syntax::{ColumnConstraint, TableElement};
use token::Kind;
use value::{ColType, Text};

/// The width that a token says, if it is a number from 1 to 255.
fn width_of(piece: &Piece<'_>) -> Option<u8>
    ensures { result ≡ spec.width_of piece.now }
{
    let value = value_of(piece);
    if piece.is(Kind::Number) && 1 <= value && value <= 255 {
        Some(value as u8)
    } else {
        None
    }
}

/// `number`, in VARCHAR's parentheses.
#[derive(Drop)]
struct Width;

impl Part for Width {
    ghost use Rattle.token.specs.declared.kinds.Kind.TheVariants as k;
    ghost use Rattle.syntax.specs.Reading as rd;
    ghost use Rattle.syntax.specs.SchemaGrammar as grammar;

    type Tree = ColType;

    ghost ready = { λ _. Unit {0} };

    ghost reader = { λ _. rd.◌<$>◌ grammar.varchar_of (rd.expect_where k.Number grammar.is_width) };

    #[tactic(auto, using(crate::proofs::Widths::width_none, crate::proofs::Widths::width_not, crate::proofs::Widths::width_read, crate::proofs::Widths::width_stops))]
    fn parse(&self, cursor: &mut Cursor<'_>) -> Result<ColType, Stop> {
        let Some(piece) = cursor.first() else {
            return Err(Stop::Syntax);
        };
        let Some(width) = width_of(&piece) else {
            return Err(Stop::Syntax);
        };
        cursor.expect(Kind::Number)?;
        Ok(ColType::Varchar(width))
    }
}

/// `INTEGER | INT | VARCHAR "(" number ")"`
#[tactic(auto, unfolding(syntax::specs::SchemaReaders::column_type))]
fn parse_column_type(cursor: &mut Cursor<'_>, depth: usize) -> Result<ColType, Stop>
    ensures { Reads (reader.column_type depth cursor.old) result cursor.new }
{
    match cursor.peek() {
        Kind::Integer => {
            cursor.take(Kind::Integer);
            Ok(ColType::Integer)
        }
        Kind::Int => {
            cursor.take(Kind::Int);
            Ok(ColType::Integer)
        }
        Kind::Varchar => {
            cursor.take(Kind::Varchar);
            parse_parens(&Width, cursor, depth)
        }
        _ => Err(Stop::Syntax),
    }
}

/// What stands behind the type of a column of a table that is created.
#[derive(Drop)]
struct BehindColumn<'a> {
    table: ConstrainedTable<'a>,
    column: &'a Text,
}

impl<'a> Part for BehindColumn<'a> {
    ghost use Rattle.syntax.specs.SchemaReaders as reader;

    type Tree = ColumnConstraint;

    ghost ready = { λ _. Unit {0} };

    ghost reader = { λ b. reader.column_constraint b.table.depth b.table.name.now b.column.now };

    /// `NOT NULL | PRIMARY KEY | [CONSTRAINT name] (UNIQUE | CHECK (cond) | REFERENCES name [(name)]) [attributes]`
    #[tactic(auto, unfolding(syntax::specs::SchemaReaders::column_constraint))]
    fn parse(&self, cursor: &mut Cursor<'_>) -> Result<ColumnConstraint, Stop> {
        match cursor.peek() {
            Kind::Not => {
                cursor.expect(Kind::Not)?;
                cursor.expect(Kind::Null)?;
                Ok(ColumnConstraint::NotNull)
            }
            Kind::Primary => {
                cursor.expect(Kind::Primary)?;
                cursor.expect(Kind::Key)?;
                Ok(ColumnConstraint::PrimaryKey)
            }
            _ => Ok(ColumnConstraint::Constraint(parse_column_constraint(
                cursor,
                &self.table,
                self.column,
            )?)),
        }
    }
}

impl<'a> RepeatedPart for BehindColumn<'a> {
    ghost use Rattle.syntax.specs.SchemaReaders as reader;

    ghost begins = { reader.starts_column_constraint };

    fn begins(&self, kind: Kind) -> bool {
        matches!(
            kind,
            Kind::Not
                | Kind::Primary
                | Kind::Constraint
                | Kind::Unique
                | Kind::Check
                | Kind::References
        )
    }
}

/// `{ constraint }`, behind the type of a column.
fn parse_behind_column(
    cursor: &mut Cursor<'_>,
    table: &ConstrainedTable<'_>,
    column: &Text,
) -> Result<Items<ColumnConstraint>, Stop>
    ensures { Reads (rd.all reader.starts_column_constraint
        (reader.column_constraint table.now.depth table.now.name.now column.now) [] cursor.old) result cursor.new }
{
    let found = Items::new(table.alloc);
    let part = BehindColumn {
        table: *table,
        column,
    };
    parse_many(&part, cursor, found)
}

/// `name type { constraint }`
#[tactic(auto, unfolding(syntax::specs::SchemaReaders::column))]
pub fn parse_column(
    cursor: &mut Cursor<'_>,
    table: &ConstrainedTable<'_>,
) -> Result<TableElement, Stop>
    ensures { Reads (reader.column table.now.depth table.now.name.now cursor.old) result cursor.new }
{
    let name = parse_name(table.alloc, cursor)?;
    let kind = parse_column_type(cursor, table.depth)?;
    match parse_behind_column(cursor, table, &name) {
        Ok(constraints) => Ok(TableElement::Column {
            name,
            kind,
            constraints,
        }),
        Err(stop) => Err(drop_and_stop(stop, name)),
    }
}
