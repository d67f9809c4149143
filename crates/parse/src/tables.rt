//! CREATE TABLE.

ghost use Rattle.std.specs.Prelude.{◌≡◌, ◌-◌, ◌++◌, [], OnOk, IfOk};
ghost use Rattle.std.specs.List.{flat_map, list_any};
ghost use Rattle.syntax.specs.SchemaGrammar as grammar;
ghost use Rattle.syntax.specs.SchemaReaders as reader;
ghost use Rattle.syntax.specs.Reading as rd;
ghost use Rattle.leaf_parser.specs.Reads.{Reads};

use crate::columns::parse_column;
use crate::constraints::{ConstrainedTable, parse_names, parse_table_constraint};
use leaf_parser::{
    Cursor, Part, Stop, drop_and_stop, parse_name, parse_parens_list, reverse, start_list,
};
use sqlite_items::Items;
use std::alloc::{AllocError, Global};
use syntax::{
    ColumnConstraint, ColumnDefinition, Definition, TableConstraint, TableDefinition, TableElement,
};
use token::Kind;
use value::Text;

/// What stands between the commas of CREATE TABLE.
#[derive(Drop)]
struct Element<'a>(ConstrainedTable<'a>);

impl<'a> Part for Element<'a> {
    ghost use Rattle.syntax.specs.SchemaReaders as reader;

    type Tree = TableElement;

    ghost ready = { λ _. Unit {0} };

    ghost reader = { λ e. reader.table_element e.0.depth e.0.name.now };

    /// `name type { constraint } | PRIMARY KEY names | constraint`
    #[tactic(auto, unfolding(syntax::specs::SchemaReaders::table_element))]
    fn parse(&self, cursor: &mut Cursor<'_>) -> Result<TableElement, Stop> {
        let table = &self.0;
        match cursor.peek() {
            Kind::Name => parse_column(cursor, table),
            Kind::Primary => {
                cursor.expect(Kind::Primary)?;
                cursor.expect(Kind::Key)?;
                Ok(TableElement::PrimaryKey(parse_names(table.alloc, cursor, table.depth)?))
            }
            _ => Ok(TableElement::Constraint(parse_table_constraint(cursor, table)?)),
        }
    }
}

/// Whether NOT NULL is among what stands behind a column.
fn is_not_null(constraints: &[ColumnConstraint]) -> bool
    ensures { result ≡ list_any grammar.is_not_null constraints.now }
{
    constraints.iter().any(|constraint| matches!(constraint, ColumnConstraint::NotNull))
}

/// Puts the key that a column becomes by PRIMARY KEY behind others.
fn push_key(
    alloc: Global,
    keys: &mut Items<Items<Text>>,
    column: &Text,
    constraint: &ColumnConstraint,
) -> Result<(), AllocError>
    ensures { OnOk result (keys.new ≡ keys.old ++ grammar.key_by column.now constraint.now) }
{
    match constraint {
        ColumnConstraint::PrimaryKey => keys.push(start_list(alloc, column.copy()?, 1)?),
        ColumnConstraint::NotNull | ColumnConstraint::Constraint(_) => Ok(()),
    }
}

/// Puts the keys that a column becomes by what stands behind it behind others.
fn push_keys(
    alloc: Global,
    keys: &mut Items<Items<Text>>,
    column: &Text,
    constraints: &[ColumnConstraint],
) -> Result<(), AllocError>
    ensures { OnOk result (keys.new ≡ keys.old ++ flat_map (grammar.key_by column.now) constraints.now) }
{
    for constraint in constraints {
        push_key(alloc, keys, column, constraint)?;
    }
    Ok(())
}

/// Puts a constraint that stands behind a column behind others.
fn move_constraint(
    all: &mut Items<TableConstraint>,
    constraint: ColumnConstraint,
) -> Result<(), AllocError>
    ensures { OnOk result (all.new ≡ all.old ++ grammar.constraint_by constraint) }
{
    match constraint {
        ColumnConstraint::Constraint(constraint) => all.push(constraint),
        ColumnConstraint::NotNull | ColumnConstraint::PrimaryKey => Ok(()),
    }
}

/// Puts the constraints that stand behind a column behind others.
#[tactic(auto, using(leaf_parser::proofs::Merging::merge_step, leaf_parser::proofs::Merging::merge_start))]
fn move_constraints(
    alloc: Global,
    all: &mut Items<TableConstraint>,
    constraints: Items<ColumnConstraint>,
) -> Result<(), AllocError>
    ensures { OnOk result (all.new ≡ all.old ++ flat_map grammar.constraint_by constraints) }
{
    let mut rest = reverse(alloc, constraints)?;
    'turn: while let Some(constraint) = rest.pop() {
        move_constraint(all, constraint)?;
    }
    Ok(())
}

/// What the elements of a table define together.
#[derive(Drop)]
struct TableParts {
    columns: Items<ColumnDefinition>,
    keys: Items<Items<Text>>,
    constraints: Items<TableConstraint>,
}

impl TableParts {
    /// Puts what an element defines behind what others do.
    fn add(&mut self, alloc: Global, element: TableElement) -> Result<(), AllocError>
        ensures columns { OnOk result (self.new.columns ≡ self.old.columns ++ grammar.column_in element) }
        ensures keys { OnOk result (self.new.keys ≡ self.old.keys ++ grammar.keys_in element) }
        ensures constraints { OnOk result
            (self.new.constraints ≡ self.old.constraints ++ grammar.constraints_in element) }
    {
        match element {
            TableElement::Column {
                name,
                kind,
                constraints,
            } => {
                let not_null = is_not_null(constraints.as_slice());
                push_keys(alloc, &mut self.keys, &name, constraints.as_slice())?;
                move_constraints(alloc, &mut self.constraints, constraints)?;
                self.columns.push(ColumnDefinition {
                    name,
                    kind,
                    not_null,
                })
            }
            TableElement::PrimaryKey(columns) => self.keys.push(columns),
            TableElement::Constraint(constraint) => self.constraints.push(constraint),
        }
    }
}

/// What elements define together.
#[tactic(auto, using(leaf_parser::proofs::Merging::merge_step, leaf_parser::proofs::Merging::merge_start))]
fn parts_of(alloc: Global, elements: Items<TableElement>) -> Result<TableParts, AllocError>
    ensures columns { IfOk result (λ parts. parts.columns ≡ flat_map grammar.column_in elements) }
    ensures keys { IfOk result (λ parts. parts.keys ≡ flat_map grammar.keys_in elements) }
    ensures constraints { IfOk result (λ parts. parts.constraints ≡ flat_map grammar.constraints_in elements) }
{
    let mut parts = TableParts {
        columns: Items::new(alloc),
        keys: Items::new(alloc),
        constraints: Items::new(alloc),
    };
    let mut rest = reverse(alloc, elements)?;
    'turn: while let Some(element) = rest.pop() {
        parts.add(alloc, element)?;
    }
    Ok(parts)
}

/// The table of this name that elements define.
fn table_of(
    alloc: Global,
    name: Text,
    elements: Items<TableElement>,
) -> Result<Definition, AllocError>
    ensures { IfOk result (λ table. table ≡ grammar.table_of name elements) }
{
    let TableParts {
        columns,
        keys,
        constraints,
    } = parts_of(alloc, elements)?;
    Ok(Definition::Table(TableDefinition {
        name,
        columns,
        keys,
        constraints,
    }))
}

/// `TABLE name "(" element { "," element } ")"`
#[tactic(auto, unfolding(syntax::specs::SchemaReaders::table))]
pub fn parse_table(alloc: Global, cursor: &mut Cursor<'_>, depth: usize) -> Result<Definition, Stop>
    ensures { Reads (reader.table depth cursor.old) result cursor.new }
{
    cursor.expect(Kind::Table)?;
    let name = parse_name(alloc, cursor)?;
    match parse_elements(alloc, cursor, &name, depth) {
        Ok(elements) => Ok(table_of(alloc, name, elements)?),
        Err(stop) => Err(drop_and_stop(stop, name)),
    }
}

/// `"(" element { "," element } ")"`, of the table of this name.
fn parse_elements(
    alloc: Global,
    cursor: &mut Cursor<'_>,
    name: &Text,
    depth: usize,
) -> Result<Items<TableElement>, Stop>
    ensures { Reads (rd.parens depth (rd.list (reader.table_element (depth - 1) name.now)) cursor.old) result cursor.new }
{
    let element = Element(ConstrainedTable {
        alloc,
        name,
        depth: depth.saturating_sub(1),
    });
    parse_parens_list(alloc, &element, cursor, depth)
}
