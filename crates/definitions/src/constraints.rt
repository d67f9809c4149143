//! The constraints of a table: the assertion that each of them is.

ghost use Rattle.std.specs.Prelude.{◌≡◌, ◌≢◌, [], ◌∷◌, ◌++◌, ℕ, List, map, IfOk, IfErr, OnOk, Ok, Err, None, Some};
ghost use Rattle.std.specs.List.{flat_map, list_all, zip};
ghost use Rattle.value.specs.declared.refusals.Refusal.TheVariants.{NoMemory};
ghost use Rattle.definitions.specs.Constraints as spec;

use sqlite_items::{Boxed, Items};
use std::alloc::{AllocError, Global};
use syntax::{
    ColumnName, Condition, Constraint, Definition, Expression, ForeignKey, Query, SelectList,
    TableConstraint, TableDefinition,
};
use table::{Catalog, Schema};
use value::{Comparison, Refusal, Text};

/// Columns of a table under UNIQUE, to which a foreign key may refer.
#[derive(Drop)]
pub struct UniqueColumns {
    pub table: Text,
    pub columns: Items<Text>,
}

/// The name that the row of a constraint's own table goes by in its assertion. It has a blank, so no text spells it.
const OWN_ROW: &str = "own row";

/// The name that the row goes by to which a foreign key refers.
const OTHER_ROW: &str = "other row";

/// The name of a constraint's assertion: that which CONSTRAINT gives it; or else TABLE_COLUMN_UNIQUE, TABLE_CHECK and
/// the like, with the columns that it is of.
pub fn constraint_name(
    alloc: Global,
    table: &Text,
    constraint: &TableConstraint,
) -> Result<Text, AllocError>
    ensures { IfOk result (λ name. name ≡ spec.constraint_name table.now constraint.now) }
{
    if let Some(name) = &constraint.name {
        return name.copy();
    }
    let mut bytes = Vec::from_slice(alloc, table.as_bytes())?;
    push_columns(&constraint.constraint, &mut bytes)?;
    bytes.extend_from_slice(word_of(&constraint.constraint))?;
    Text::new(bytes)
}

/// Puts the names of a constraint's columns behind other bytes, each behind a `_`.
fn push_columns(constraint: &Constraint, bytes: &mut Vec<u8>) -> Result<(), AllocError>
    ensures { OnOk result (bytes.new.items ≡ bytes.old.items ++ spec.joined_columns constraint.now) }
{
    match constraint {
        Constraint::Unique(columns) => push_names(columns.as_slice(), bytes),
        Constraint::Check {
            column: Some(column),
            ..
        } => push_name(column, bytes),
        Constraint::Check { column: None, .. } => Ok(()),
        Constraint::ForeignKey(key) => push_names(key.columns.as_slice(), bytes),
    }
}

fn push_names(names: &[Text], bytes: &mut Vec<u8>) -> Result<(), AllocError>
    ensures { OnOk result (bytes.new.items ≡ bytes.old.items ++ spec.joined names.now) }
{
    for name in names {
        push_name(name, bytes)?;
    }
    Ok(())
}

fn push_name(name: &Text, bytes: &mut Vec<u8>) -> Result<(), AllocError>
    ensures { OnOk result (bytes.new.items ≡ bytes.old.items ++ spec.behind_line name.now) }
{
    bytes.push(b'_')?;
    bytes.extend_from_slice(name.as_bytes())
}

/// The word at the end of a constraint's name.
fn word_of(constraint: &Constraint) -> &'static [u8]
    ensures { result.now ≡ spec.last_word constraint.now }
{
    match constraint {
        Constraint::Unique(_) => b"_UNIQUE",
        Constraint::Check { .. } => b"_CHECK",
        Constraint::ForeignKey(_) => b"_FOREIGN",
    }
}

/// Puts the columns under UNIQUE of a definition behind those of others.
pub fn note_unique(
    alloc: Global,
    all: &mut Vec<UniqueColumns>,
    definition: &Definition,
) -> Result<(), AllocError>
    ensures { OnOk result (all.new.items ≡ all.old.items ++ spec.unique_in definition.now) }
{
    match definition {
        Definition::Table(table) => note_unique_of(alloc, all, table),
        _ => Ok(()),
    }
}

/// Puts the columns under UNIQUE of a table behind those of others.
pub fn note_unique_of(
    alloc: Global,
    all: &mut Vec<UniqueColumns>,
    table: &TableDefinition,
) -> Result<(), AllocError>
    ensures { OnOk result (all.new.items ≡ all.old.items ++ spec.unique_of table.now) }
{
    note_each_unique(alloc, all, &table.name, table.constraints.as_slice())
}

/// Puts the columns of each UNIQUE behind those of others.
fn note_each_unique(
    alloc: Global,
    all: &mut Vec<UniqueColumns>,
    table: &Text,
    constraints: &[TableConstraint],
) -> Result<(), AllocError>
    ensures { OnOk result (all.new.items ≡ all.old.items ++ flat_map (spec.unique_by table.now) constraints.now) }
{
    for constraint in constraints {
        note_unique_columns(alloc, all, table, constraint)?;
    }
    Ok(())
}

/// Puts the columns of a UNIQUE behind those of others.
fn note_unique_columns(
    alloc: Global,
    all: &mut Vec<UniqueColumns>,
    table: &Text,
    constraint: &TableConstraint,
) -> Result<(), AllocError>
    ensures { OnOk result (all.new.items ≡ all.old.items ++ spec.unique_by table.now constraint.now) }
{
    match &constraint.constraint {
        Constraint::Unique(columns) => {
            let columns = copy_names(alloc, columns.as_slice())?;
            all.push(UniqueColumns {
                table: table.copy()?,
                columns,
            })?;
            Ok(())
        }
        Constraint::Check { .. } | Constraint::ForeignKey(_) => Ok(()),
    }
}

/// Names equal to these, in their order.
fn copy_names(alloc: Global, names: &[Text]) -> Result<Items<Text>, AllocError>
    ensures { IfOk result (λ copy. copy ≡ names.now) }
{
    let mut copies = Vec::with_capacity(alloc, names.len())?;
    for name in names {
        copies.push(name.copy()?)?;
    }
    Ok(Items::from_vec(copies))
}

/// The condition of UNIQUE: that no group of the rows with a value in each of the columns has two.
///
/// # Errors
///
/// [`Refusal::UnknownName`] of the first column that the table has not, or [`Refusal::NameTaken`] of one that stands
/// twice, whichever comes first. Or [`Refusal::NoMemory`].
pub fn unique_condition(
    alloc: Global,
    catalog: &Catalog,
    table: &Text,
    columns: &[Text],
) -> Result<Condition, Refusal>
    ensures made { IfOk result (λ condition.
        spec.unique_condition catalog.now table.now columns.now ≡ Ok condition) }
    ensures refused { IfErr result (λ refusal. refusal ≢ NoMemory
        → spec.unique_condition catalog.now table.now columns.now ≡ Err refusal) }
{
    require_columns(catalog, table, columns)?;
    Ok(no_two_agree(alloc, table, columns)?)
}

/// NOT EXISTS (SELECT * FROM table WHERE columns IS NOT NULL GROUP BY columns HAVING COUNT(*) > 1).
fn no_two_agree(alloc: Global, table: &Text, columns: &[Text]) -> Result<Condition, AllocError>
    ensures { IfOk result (λ condition. condition ≡ spec.no_two_agree table.now columns.now) }
{
    let own = Text::from_str(alloc, OWN_ROW)?;
    let query = Query {
        select_list: SelectList::Star,
        table: table.copy()?,
        keeps: Some(all_of(are_there(alloc, &own, columns)?)),
        group: only_column(&own, columns)?,
        having: Some(Condition::Compare(
            Expression::CountRows,
            Comparison::Greater,
            Expression::Number(1),
        )),
        correlation_name: Some(own),
    };
    no_row(alloc, query)
}

/// The column by which groups are made. GROUP BY takes one: of several there is no such query.
fn only_column(row: &Text, columns: &[Text]) -> Result<Option<ColumnName>, AllocError>
    ensures { IfOk result (λ column. column ≡ spec.only_column row.now columns.now) }
{
    match columns {
        [column] => Ok(Some(column_of(row, column)?)),
        _ => Ok(None),
    }
}

/// The condition of FOREIGN KEY: that each row has NULL in one of the columns, or there is a row that it refers to.
/// `unique` are the columns under UNIQUE of all tables.
///
/// # Errors
///
/// The first of these: [`Refusal::UnknownName`] of a column that the table has not, or [`Refusal::NameTaken`] of one
/// that stands twice; [`Refusal::UnknownName`] of the other table; the same of its columns;
/// [`Refusal::TypeMismatch`] where they are not as many; and [`Refusal::OutsideClass`] where they are neither its key
/// nor under UNIQUE. Or [`Refusal::NoMemory`].
pub fn foreign_key_condition(
    alloc: Global,
    catalog: &Catalog,
    unique: &[UniqueColumns],
    table: &Text,
    key: &ForeignKey,
) -> Result<Condition, Refusal>
    ensures made { IfOk result (λ condition.
        spec.foreign_key_condition catalog.now unique.now table.now key.now ≡ Ok condition) }
    ensures refused { IfErr result (λ refusal. refusal ≢ NoMemory
        → spec.foreign_key_condition catalog.now unique.now table.now key.now ≡ Err refusal) }
{
    require_columns(catalog, table, key.columns.as_slice())?;
    let referenced = referenced_columns(alloc, catalog, key)?;
    require_columns(catalog, &key.table, referenced.as_slice())?;
    if referenced.len() != key.columns.len() {
        return Err(Refusal::TypeMismatch);
    }
    if !is_one_row(catalog, unique, &key.table, referenced.as_slice()) {
        return Err(Refusal::OutsideClass);
    }
    Ok(each_is_there(alloc, table, key, referenced.as_slice())?)
}

/// The columns that a foreign key refers to: those that are written, or else the key of its table.
fn referenced_columns(
    alloc: Global,
    catalog: &Catalog,
    key: &ForeignKey,
) -> Result<Items<Text>, Refusal>
    ensures found { IfOk result (λ columns. spec.referenced_columns catalog.now key.now ≡ Ok columns) }
    ensures refused { IfErr result (λ refusal. refusal ≢ NoMemory
        → spec.referenced_columns catalog.now key.now ≡ Err refusal) }
{
    let Some(schema) = catalog.get(&key.table) else {
        return Err(Refusal::UnknownName {
            name: key.table.copy()?,
        });
    };
    match &key.referenced {
        Some(columns) => Ok(copy_names(alloc, columns.as_slice())?),
        None => Ok(key_columns(alloc, schema)?),
    }
}

/// The name of a table's key, as a list.
fn key_columns(alloc: Global, schema: &Schema) -> Result<Items<Text>, AllocError>
    ensures { IfOk result (λ columns. columns ≡ spec.key_columns schema.now) }
{
    match schema.columns().get(schema.key()) {
        Some(column) => only_name(alloc, &column.name),
        None => Ok(Items::new(alloc)),
    }
}

/// A list of one name.
fn only_name(alloc: Global, name: &Text) -> Result<Items<Text>, AllocError>
    ensures { IfOk result (λ names. names ≡ name.now ∷ []) }
{
    let mut names = Items::new(alloc);
    names.push(name.copy()?)?;
    Ok(names)
}

/// Whether no two rows of a table can agree in these columns: they are its key, or under UNIQUE.
fn is_one_row(catalog: &Catalog, unique: &[UniqueColumns], table: &Text, columns: &[Text]) -> bool
    ensures { result ≡ spec.is_one_row catalog.now unique.now table.now columns.now }
{
    is_key(catalog, table, columns) || are_under_unique(unique, table, columns)
}

/// Whether these columns are the key of a table.
fn is_key(catalog: &Catalog, table: &Text, columns: &[Text]) -> bool
    ensures { result ≡ spec.is_key catalog.now table.now columns.now }
{
    match (catalog.get(table), columns) {
        (Some(schema), [column]) => schema.column(column) == Some(schema.key()),
        _ => false,
    }
}

/// Whether a UNIQUE of a table has these columns, in any order.
fn are_under_unique(unique: &[UniqueColumns], table: &Text, columns: &[Text]) -> bool
    ensures { result ≡ spec.are_under_unique unique.now table.now columns.now }
{
    unique.iter().any(|one| one.table == *table && has_columns(one.columns.as_slice(), columns))
}

/// Whether some columns, none of which stands twice, are as many as others and among them.
fn has_columns(among: &[Text], columns: &[Text]) -> bool
    ensures { result ≡ spec.has_columns among.now columns.now }
{
    among.len() == columns.len() && has_names(among, columns)
}

/// Whether some columns are among others.
fn has_names(among: &[Text], columns: &[Text]) -> bool
    ensures { result ≡ list_all (λ column. spec.has_name column among.now) columns.now }
{
    columns.iter().all(|column| has_name(among, column))
}

/// Refuses the first of some names that is no column of a table, or that stands before it.
fn require_columns(catalog: &Catalog, table: &Text, names: &[Text]) -> Result<(), Refusal>
    ensures good { OnOk result (spec.columns_fault catalog.now table.now names.now ≡ None) }
    ensures refused { IfErr result (λ refusal. refusal ≢ NoMemory
        → spec.columns_fault catalog.now table.now names.now ≡ Some refusal) }
{
    for i in 0..names.len() {
        if !has_column(catalog, table, &names[i]) {
            return Err(Refusal::UnknownName {
                name: names[i].copy()?,
            });
        }
        if has_name(&names[..i], &names[i]) {
            return Err(Refusal::NameTaken {
                name: names[i].copy()?,
            });
        }
    }
    Ok(())
}

fn has_column(catalog: &Catalog, table: &Text, name: &Text) -> bool
    ensures { result ≡ spec.has_column catalog.now table.now name.now }
{
    catalog
        .get(table)
        .is_some_and(|schema| schema.column(name).is_some())
}

fn has_name(names: &[Text], name: &Text) -> bool
    ensures { result ≡ spec.has_name name.now names.now }
{
    names.iter().any(|other| *other == *name)
}

/// NOT EXISTS (SELECT * FROM table WHERE columns IS NOT NULL AND NOT EXISTS (SELECT * FROM other WHERE they agree)).
fn each_is_there(
    alloc: Global,
    table: &Text,
    key: &ForeignKey,
    referenced: &[Text],
) -> Result<Condition, AllocError>
    ensures { IfOk result (λ condition. condition ≡ spec.each_is_there table.now key.now referenced.now) }
{
    let own = Text::from_str(alloc, OWN_ROW)?;
    let query = Query {
        select_list: SelectList::Star,
        table: table.copy()?,
        keeps: Some(all_of(refers_to_none(alloc, &own, key, referenced)?)),
        correlation_name: Some(own),
        group: None,
        having: None,
    };
    no_row(alloc, query)
}

/// That a row has a value in each of the columns, and there is no row that it refers to.
fn refers_to_none(
    alloc: Global,
    own: &Text,
    key: &ForeignKey,
    referenced: &[Text],
) -> Result<Items<Condition>, AllocError>
    ensures { IfOk result (λ parts. parts ≡ map (spec.is_there own.now) key.now.columns
        ++ spec.no_row (spec.rows_referred_to own.now key.now referenced.now) ∷ []) }
{
    let mut parts = are_there(alloc, own, key.columns.as_slice())?;
    parts.push(no_row(alloc, rows_referred_to(alloc, own, key, referenced)?)?)?;
    Ok(parts)
}

/// SELECT * FROM other WHERE its columns are equal to those of the row around.
fn rows_referred_to(
    alloc: Global,
    own: &Text,
    key: &ForeignKey,
    referenced: &[Text],
) -> Result<Query, AllocError>
    ensures { IfOk result (λ query. query ≡ spec.rows_referred_to own.now key.now referenced.now) }
{
    let parts = agreements(alloc, own, key.columns.as_slice(), referenced)?;
    Ok(Query {
        select_list: SelectList::Star,
        table: key.table.copy()?,
        correlation_name: Some(Text::from_str(alloc, OTHER_ROW)?),
        keeps: Some(all_of(parts)),
        group: None,
        having: None,
    })
}

/// Of each column of the row that refers that the one that it refers to is equal to it.
fn agreements(
    alloc: Global,
    own: &Text,
    columns: &[Text],
    referenced: &[Text],
) -> Result<Items<Condition>, AllocError>
    ensures { IfOk result (λ parts. parts ≡ map (spec.agree own.now) (zip columns.now referenced.now)) }
{
    let mut parts = Items::new(alloc);
    for (column, to) in columns.iter().zip(referenced) {
        parts.push(agree(alloc, own, column, to)?)?;
    }
    Ok(parts)
}

/// That a column of the row that is referred to is equal to one of the row that refers.
fn agree(alloc: Global, own: &Text, column: &Text, to: &Text) -> Result<Condition, AllocError>
    ensures { IfOk result (λ condition. condition ≡ spec.agree own.now (column.now, to.now)) }
{
    let other = Text::from_str(alloc, OTHER_ROW)?;
    Ok(Condition::Compare(
        Expression::Column(column_of(&other, to)?),
        Comparison::Equal,
        Expression::Column(column_of(own, column)?),
    ))
}

/// NOT EXISTS (query)
fn no_row(alloc: Global, query: Query) -> Result<Condition, AllocError>
    ensures { IfOk result (λ condition. condition ≡ spec.no_row query) }
{
    let exists = Condition::Exists(Boxed::new(alloc, query)?);
    Ok(Condition::Not(Boxed::new(alloc, exists)?))
}

/// Of each column that it IS NOT NULL.
fn are_there(alloc: Global, row: &Text, columns: &[Text]) -> Result<Items<Condition>, AllocError>
    ensures { IfOk result (λ parts. parts ≡ map (spec.is_there row.now) columns.now) }
{
    let mut parts = Items::new(alloc);
    for column in columns {
        parts.push(is_there(alloc, row, column)?)?;
    }
    Ok(parts)
}

/// `row.column IS NOT NULL`
fn is_there(alloc: Global, row: &Text, column: &Text) -> Result<Condition, AllocError>
    ensures { IfOk result (λ condition. condition ≡ spec.is_there row.now column.now) }
{
    let is_null = Condition::IsNull(Expression::Column(column_of(row, column)?));
    Ok(Condition::Not(Boxed::new(alloc, is_null)?))
}

/// `row.column`
fn column_of(row: &Text, column: &Text) -> Result<ColumnName, AllocError>
    ensures { IfOk result (λ name. name ≡ spec.column_of_row row.now column.now) }
{
    Ok(ColumnName {
        qualifier: Some(row.copy()?),
        name: column.copy()?,
    })
}

/// All of these, of which there is one at least.
fn all_of(mut parts: Items<Condition>) -> Condition
    ensures { result ≡ spec.all_of parts }
{
    if parts.len() == 1 {
        return parts.remove(0);
    }
    Condition::And(parts)
}
