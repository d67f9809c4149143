//! Statements of a script that look at every row of their table.

use assertcheck::{check_delete, check_select};
use changes::TableFilter;
use delta::View;
use siread::LockKey;
use std::alloc::{AllocError, Global};
use syntax::{Event, ScriptLine, Statement};
use table::Cond;
use value::Refusal;

/// At most so many are told.
pub const MOST_SCANS: usize = 5;

/// A statement that looks at every row of its table: its WHERE wants neither a key nor a value that an index finds.
#[derive(Clone, Copy)]
pub struct Scan {
    /// The place of its line in the script.
    pub place: usize,
    pub table: usize,
    /// The column of which it wants a value, if it does: by an index it would look at the rows alone that have it.
    pub column: Option<usize>,
}

/// Puts the first such statements of a script behind others.
pub fn push_scans(
    alloc: Global,
    lines: &[ScriptLine],
    view: &View,
    scans: &mut Vec<Scan>,
) -> Result<(), AllocError> {
    for (place, line) in lines.iter().enumerate() {
        if scans.len() >= MOST_SCANS {
            return Ok(());
        }
        if let Event::Run(statement) = &line.event {
            push_scan(alloc, place, statement, view, scans)?;
        }
    }
    Ok(())
}

/// Puts a statement behind the others, if it is such a one.
fn push_scan(
    alloc: Global,
    place: usize,
    statement: &Statement,
    view: &View,
    scans: &mut Vec<Scan>,
) -> Result<(), AllocError> {
    match statement {
        Statement::Update { table, keeps, .. } | Statement::Delete { table, keeps } => {
            // (a WHERE is resolved alike in both)
            let scanned = match check_delete(alloc, view.catalog(), table, keeps) {
                Ok(resolved) => scanned_by(resolved.table, &resolved.filter, view)?,
                Err(refusal) => none_unless_memory(&refusal)?,
            };
            put_scan(place, scanned, scans)
        }
        Statement::Select(select) => {
            let scanned = match check_select(alloc, view.catalog(), select) {
                Ok(resolved) => scanned_by(resolved.table, &resolved.filter, view)?,
                Err(refusal) => none_unless_memory(&refusal)?,
            };
            put_scan(place, scanned, scans)
        }
        _ => Ok(()),
    }
}

/// Puts the statement of a line behind the others, if it looks at every row of a table.
fn put_scan(
    place: usize,
    scanned: Option<(usize, Option<usize>)>,
    scans: &mut Vec<Scan>,
) -> Result<(), AllocError> {
    if let Some((table, column)) = scanned {
        scans.push(Scan {
            place,
            table,
            column,
        })?;
    }
    Ok(())
}

/// Nothing, or want of memory where that is the refusal.
fn none_unless_memory<T>(refusal: &Refusal) -> Result<Option<T>, AllocError> {
    match refusal {
        Refusal::NoMemory => Err(AllocError),
        _ => Ok(None),
    }
}

/// The table, if the WHERE of a statement over it looks at every row, and the column of which it wants a value.
fn scanned_by(
    table: usize,
    condition: &Cond,
    view: &View,
) -> Result<Option<(usize, Option<usize>)>, AllocError> {
    if table >= view.catalog().len() {
        return Ok(None);
    }
    let key = view.key_column(table);
    let filter = TableFilter::new(table, key, condition)?;
    Ok(match filter.read() {
        LockKey::Row(_) => None,
        LockKey::Column { column, value, .. } => {
            match view.rows(table).index_scan(key, *column, value) {
                Some(_) => None,
                None => Some((table, Some(*column))),
            }
        }
        LockKey::Table(_) => Some((table, None)),
    })
}
