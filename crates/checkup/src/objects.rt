//! What was found, as JSON for editors.

use crate::examinations::{Examination, Texts};
use crate::figures::{Figures, MaintainedFunction, Reading, Upkeep, put_figures, row_count};
use crate::naming::{column_name, name_text, push_function, table_name};
use crate::scans::Scan;
use crate::texts::line_of;
use assertion::{Assertion, Form};
use delta::View;
use faults::{At, Diagnosis, NamedText, Span, place_of};
use serde_json::{Value, json};
use std::alloc::{AllocError, Global};
use table::Catalog;
use value::Root;

/// Puts what was found in two texts behind a text, on one line.
pub fn push_object(
    alloc: Global,
    texts: Texts,
    found: &Examination,
    text: &mut String,
) -> Result<(), AllocError> {
    let whole = object(alloc, texts, found)?;
    text.push_str(whole.to_string(alloc)?.as_str())?;
    text.push_str("\n")
}

fn object(alloc: Global, texts: Texts, found: &Examination) -> Result<Value, AllocError> {
    let ok = found.faults.is_empty();
    let tables = tables(alloc, &found.view)?;
    let assertions = assertions(alloc, &found.view)?;
    let faults = diagnoses(alloc, texts, &found.faults)?;
    let notes = diagnoses(alloc, texts, &found.notes)?;
    let scans = scans(alloc, texts, found)?;
    let events = found.events;
    let sessions = found.sessions;
    json!(in alloc; {
        "ok": ok,
        "tables": tables,
        "assertions": assertions,
        "events": events,
        "sessions": sessions,
        "faults": faults,
        "notes": notes,
        "scans": scans
    })
}

fn diagnoses(alloc: Global, texts: Texts, found: &[Diagnosis]) -> Result<Value, AllocError> {
    let mut made = Vec::new(alloc);
    for diagnosis in found {
        made.push(diagnosis_object(alloc, texts.of(diagnosis.which), diagnosis)?)?;
    }
    Ok(Value::Array(made))
}

/// A fault: its text, its number, what is wrong, what to do, and where it is. Lines and columns are from 1, and columns
/// are those of a terminal; `start` and `end` are bytes, and `end` is the first one behind it.
fn diagnosis_object(
    alloc: Global,
    named: NamedText,
    diagnosis: &Diagnosis,
) -> Result<Value, AllocError> {
    let (exact, span) = match diagnosis.at {
        At::Bytes(span) => (true, span),
        At::Definition(span) => (false, span),
        At::Nowhere => (false, Span { start: 0, end: 0 }),
    };
    let from = place_of(named.bytes, span.start);
    let to = place_of(named.bytes, span.end);
    let file = named.name;
    let number = diagnosis.number;
    let what = diagnosis.what.as_str();
    let advice = lines(alloc, diagnosis.advice.as_str())?;
    json!(in alloc; {
        "file": file,
        "fault": number,
        "what": what,
        "advice": advice,
        "exact": exact,
        "line": (from.line),
        "column": (from.column),
        "end_line": (to.line),
        "end_column": (to.column),
        "start": (span.start),
        "end": (span.end)
    })
}

/// The statements that look at every row of their table.
fn scans(alloc: Global, texts: Texts, found: &Examination) -> Result<Value, AllocError> {
    let mut made = Vec::new(alloc);
    if let (Some(view), Some(script)) = (&found.view, texts.script) {
        for scan in &found.scans {
            made.push(scan_object(alloc, script, view.catalog(), *scan)?)?;
        }
    }
    Ok(Value::Array(made))
}

/// Such a statement: its line, its table, and the column by which an index would spare it that, or null.
fn scan_object(
    alloc: Global,
    script: NamedText,
    catalog: &Catalog,
    scan: Scan,
) -> Result<Value, AllocError> {
    let file = script.name;
    let line = line_of(alloc, script, scan.place)?;
    let table = table_name(catalog, scan.table);
    let column = column_or_null(alloc, catalog, scan.table, scan.column)?;
    json!(in alloc; {"file": file, "line": line, "table": table, "column": column})
}

/// The lines of a text.
fn lines(alloc: Global, text: &str) -> Result<Value, AllocError> {
    let mut made = Vec::new(alloc);
    for line in text.lines() {
        made.push(Value::try_from_str(alloc, line)?)?;
    }
    Ok(Value::Array(made))
}

/// The tables, where definitions were taken in.
fn tables(alloc: Global, view: &Option<View>) -> Result<Value, AllocError> {
    let mut made = Vec::new(alloc);
    if let Some(view) = view {
        for table in 0..view.catalog().len() {
            made.push(table_object(alloc, view, table)?)?;
        }
    }
    Ok(Value::Array(made))
}

fn table_object(alloc: Global, view: &View, table: usize) -> Result<Value, AllocError> {
    let name = table_name(view.catalog(), table);
    let key = column_name(view.catalog(), table, view.key_column(table));
    let rows = row_count(view, table);
    json!(in alloc; {"name": name, "key": key, "rows": rows})
}

/// The assertions, where definitions were taken in.
fn assertions(alloc: Global, view: &Option<View>) -> Result<Value, AllocError> {
    let mut made = Vec::new(alloc);
    if let Some(view) = view {
        for (place, assertion) in view.assertions().iter().enumerate() {
            made.push(assertion_object(alloc, view, place, assertion)?)?;
        }
    }
    Ok(Value::Array(made))
}

/// An assertion: its form, its figures, when it is checked and its truth, with the least bad root where it is false.
fn assertion_object(
    alloc: Global,
    view: &View,
    place: usize,
    assertion: &Assertion,
) -> Result<Value, AllocError> {
    let mut figures = Figures::new(alloc);
    put_figures(alloc, view, &assertion.form, &mut figures)?;
    with_figures(alloc, view, place, assertion, &figures)
}

fn with_figures(
    alloc: Global,
    view: &View,
    place: usize,
    assertion: &Assertion,
    figures: &Figures,
) -> Result<Value, AllocError> {
    let name = name_text(&assertion.name);
    let form = match &assertion.form {
        Form::ByRow { .. } => "rows",
        Form::ByGroup { .. } => "groups",
        Form::Single { .. } => "single",
    };
    let deferrable = assertion.attributes.deferrable;
    let deferred = assertion.attributes.initially_deferred;
    let (verdict, root) = truth(alloc, view, place)?;
    let kept = all_kept(alloc, view.catalog(), &assertion.form, &figures.kept)?;
    let reads = all_readings(alloc, view.catalog(), &figures.readings)?;
    let rows = figures.counts.rows;
    let groups = figures.counts.groups;
    json!(in alloc; {
        "name": name,
        "form": form,
        "rows": rows,
        "groups": groups,
        "deferrable": deferrable,
        "initially_deferred": deferred,
        "verdict": verdict,
        "root": root,
        "kept": kept,
        "reads": reads
    })
}

/// The truth of an assertion, and its least bad root as SQL writes it.
fn truth(alloc: Global, view: &View, place: usize) -> Result<(&'static str, Value), AllocError> {
    if place >= view.assertions().len() {
        return Ok(("UNKNOWN", Value::Null));
    }
    let root = match view.least_bad(place) {
        Some(root) => root_text(alloc, root)?,
        None => Value::Null,
    };
    Ok((view.verdict(place).name(), root))
}

fn root_text(alloc: Global, root: &Root) -> Result<Value, AllocError> {
    Ok(Value::String(format!(in alloc; "{root}")?))
}

fn all_kept(
    alloc: Global,
    catalog: &Catalog,
    form: &Form,
    all: &[MaintainedFunction],
) -> Result<Value, AllocError> {
    let mut made = Vec::new(alloc);
    for kept in all {
        made.push(one_kept(alloc, catalog, form, kept)?)?;
    }
    Ok(Value::Array(made))
}

/// For what a total is maintained.
fn upkeep_name(upkeep: Upkeep) -> &'static str {
    match upkeep {
        Upkeep::Groups => "groups",
        Upkeep::RowsAround => "rows",
        Upkeep::Nothing => "none",
    }
}

fn one_kept(
    alloc: Global,
    catalog: &Catalog,
    form: &Form,
    kept: &MaintainedFunction,
) -> Result<Value, AllocError> {
    let function = function_text(alloc, catalog, kept)?;
    let table = table_name(catalog, kept.table);
    let by = column_or_null(alloc, catalog, kept.table, kept.grouping.column())?;
    let filter = columns(alloc, catalog, kept.table, &kept.filter)?;
    let beside = columns_beside(alloc, catalog, form, kept)?;
    let upkeep = upkeep_name(kept.upkeep);
    let rows = kept.counts.rows;
    let groups = kept.counts.groups;
    json!(in alloc; {
        "function": function,
        "table": table,
        "by": by,
        "upkeep": upkeep,
        "where": filter,
        "beside": beside,
        "rows": rows,
        "groups": groups
    })
}

fn function_text(
    alloc: Global,
    catalog: &Catalog,
    kept: &MaintainedFunction,
) -> Result<Value, AllocError> {
    let mut text = String::new(alloc);
    push_function(catalog, kept.table, kept.function, &mut text)?;
    Ok(Value::String(text))
}

/// The columns of the row around that a set function looks at.
fn columns_beside(
    alloc: Global,
    catalog: &Catalog,
    form: &Form,
    kept: &MaintainedFunction,
) -> Result<Value, AllocError> {
    match form {
        Form::ByRow { table, .. } => columns(alloc, catalog, *table, &kept.beside),
        Form::ByGroup { .. } | Form::Single { .. } => Ok(Value::Array(Vec::new(alloc))),
    }
}

/// The names of columns of a table.
fn columns(
    alloc: Global,
    catalog: &Catalog,
    table: usize,
    columns: &[usize],
) -> Result<Value, AllocError> {
    let mut made = Vec::new(alloc);
    for column in columns {
        made.push(Value::try_from_str(alloc, column_name(catalog, table, *column))?)?;
    }
    Ok(Value::Array(made))
}

fn column_or_null(
    alloc: Global,
    catalog: &Catalog,
    table: usize,
    column: Option<usize>,
) -> Result<Value, AllocError> {
    match column {
        Some(column) => Value::try_from_str(alloc, column_name(catalog, table, column)),
        None => Ok(Value::Null),
    }
}

fn all_readings(
    alloc: Global,
    catalog: &Catalog,
    readings: &[Reading],
) -> Result<Value, AllocError> {
    let mut made = Vec::new(alloc);
    for reading in readings {
        made.push(one_reading(alloc, catalog, reading)?)?;
    }
    Ok(Value::Array(made))
}

fn one_reading(alloc: Global, catalog: &Catalog, reading: &Reading) -> Result<Value, AllocError> {
    let table = table_name(catalog, reading.table);
    let by = column_or_null(alloc, catalog, reading.table, reading.by)?;
    let columns = columns(alloc, catalog, reading.table, &reading.columns)?;
    json!(in alloc; {"table": table, "by": by, "columns": columns})
}
