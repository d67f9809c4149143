//! Copies of what has no number in it, and lists of what is made.

ghost use Rattle.std.specs.Prelude.{◌≡◌, [], ◌∷◌, ◌++◌, IfOk};

use crate::faults::FillFault;
use sqlite_items::Items;
use std::alloc::{AllocError, Global};
use syntax::{Argument, ColumnName, Which};
use value::Text;

/// The fault, once what was made is let go. Here its type is a parameter: that a tree may be dropped is proved dearly.
pub fn drop_and_fail<T: Drop>(fault: FillFault, _made: T) -> FillFault
    ensures { result ≡ fault }
{
    fault
}

/// A part more.
pub fn put_behind<T: Drop>(mut made: Vec<T>, part: T) -> Result<Vec<T>, AllocError>
    ensures { IfOk result (λ more. more.items ≡ made.items ++ part ∷ []) }
{
    made.push(part)?;
    Ok(made)
}

/// A name equal to this one, if there is one.
pub fn copy_name(name: &Option<Text>) -> Result<Option<Text>, AllocError>
    ensures { IfOk result (λ copy. copy ≡ name.now) }
{
    match name {
        None => Ok(None),
        Some(name) => Ok(Some(name.copy()?)),
    }
}

/// A column's name equal to this one.
pub fn copy_column(column: &ColumnName) -> Result<ColumnName, AllocError>
    ensures { IfOk result (λ copy. copy ≡ column.now) }
{
    let qualifier = copy_name(&column.qualifier)?;
    let name = column.name.copy()?;
    Ok(ColumnName { qualifier, name })
}

/// A set function's argument equal to this one.
pub fn copy_argument(argument: &Argument) -> Result<Argument, AllocError>
    ensures { IfOk result (λ copy. copy ≡ argument.now) }
{
    let column = copy_column(&argument.column)?;
    Ok(Argument {
        quantifier: argument.quantifier,
        column,
    })
}

/// A column of GROUP BY equal to this one, if there is one.
pub fn copy_group(group: &Option<ColumnName>) -> Result<Option<ColumnName>, AllocError>
    ensures { IfOk result (λ copy. copy ≡ group.now) }
{
    match group {
        None => Ok(None),
        Some(column) => Ok(Some(copy_column(column)?)),
    }
}

/// Names equal to these, in their order.
pub fn copy_names(alloc: Global, names: &[Text]) -> Result<Items<Text>, AllocError>
    ensures { IfOk result (λ copy. copy ≡ names.now) }
{
    let mut copies = Vec::with_capacity(alloc, names.len())?;
    for name in names {
        copies.push(name.copy()?)?;
    }
    Ok(Items::from_vec(copies))
}

/// The columns of an INSERT, if they are listed.
pub fn copy_columns(
    alloc: Global,
    columns: &Option<Items<Text>>,
) -> Result<Option<Items<Text>>, AllocError>
    ensures { IfOk result (λ copy. copy ≡ columns.now) }
{
    match columns {
        None => Ok(None),
        Some(columns) => Ok(Some(copy_names(alloc, columns.as_slice())?)),
    }
}

/// Names of columns equal to these, in their order.
fn copy_column_names(alloc: Global, columns: &[ColumnName]) -> Result<Items<ColumnName>, AllocError>
    ensures { IfOk result (λ copy. copy ≡ columns.now) }
{
    let mut copies = Vec::with_capacity(alloc, columns.len())?;
    for column in columns {
        copies.push(copy_column(column)?)?;
    }
    Ok(Items::from_vec(copies))
}

/// The columns of a SELECT's GROUP BY, if it has one.
pub fn copy_grouping_columns(
    alloc: Global,
    columns: &Option<Items<ColumnName>>,
) -> Result<Option<Items<ColumnName>>, AllocError>
    ensures { IfOk result (λ copy. copy ≡ columns.now) }
{
    match columns {
        None => Ok(None),
        Some(columns) => Ok(Some(copy_column_names(alloc, columns.as_slice())?)),
    }
}

/// All, or the names.
pub fn copy_which(alloc: Global, which: &Which) -> Result<Which, AllocError>
    ensures { IfOk result (λ copy. copy ≡ which.now) }
{
    match which {
        Which::All => Ok(Which::All),
        Which::Names(names) => Ok(Which::Names(copy_names(alloc, names.as_slice())?)),
    }
}
