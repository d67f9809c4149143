//! What was found, as a person reads it.

use crate::examinations::{Examination, MOST_NOTES, Texts};
use crate::figures::{
    Figures, Grouping, MaintainedFunction, Reading, Upkeep, put_figures, row_count,
};
use crate::naming::{column_name, push_column_names, push_function, table_name};
use crate::scans::{MOST_SCANS, Scan};
use assertion::{Assertion, Form};
use delta::View;
use faults::{Colour, Diagnosis, NamedText, Piece, draw, place_of};
use std::alloc::{AllocError, Global};
use table::Catalog;
use value::Truth;

/// Shows what was found in two texts: tables, assertions, notes and faults, and last whether all is well.
pub fn show(
    alloc: Global,
    texts: Texts,
    found: &Examination,
    colour: Colour,
    shown: &mut String,
) -> Result<(), AllocError> {
    if let Some(view) = &found.view {
        show_view(alloc, view, colour, shown)?;
    }
    show_notes(texts, &found.notes, colour, shown)?;
    show_scans(alloc, texts, found, shown)?;
    for fault in &found.faults {
        show_diagnosis(texts, fault, colour, shown)?;
    }
    if found.faults.is_empty() {
        show_ending(found, texts.script.is_some(), colour, shown)?;
    }
    Ok(())
}

/// The tables and the assertions.
fn show_view(
    alloc: Global,
    view: &View,
    colour: Colour,
    shown: &mut String,
) -> Result<(), AllocError> {
    show_tables(view, colour, shown)?;
    for place in 0..view.assertions().len() {
        show_assertion(alloc, view, place, colour, shown)?;
    }
    if !shown.is_empty() {
        shown.push_str("\n")?;
    }
    Ok(())
}

/// The first statements that are always refused.
fn show_notes(
    texts: Texts,
    notes: &[Diagnosis],
    colour: Colour,
    shown: &mut String,
) -> Result<(), AllocError> {
    for note in notes {
        shown.push_str("This statement is refused in every transaction:\n")?;
        show_diagnosis(texts, note, colour, shown)?;
    }
    if notes.len() >= MOST_NOTES {
        shown.push_str("(The statements behind it were not looked at.)\n")?;
    }
    Ok(())
}

/// The first statements that look at every row of their table.
fn show_scans(
    alloc: Global,
    texts: Texts,
    found: &Examination,
    shown: &mut String,
) -> Result<(), AllocError> {
    let (Some(view), Some(script)) = (&found.view, texts.script) else {
        return Ok(());
    };
    for scan in &found.scans {
        show_scan(alloc, script, view.catalog(), *scan, shown)?;
    }
    if found.scans.len() >= MOST_SCANS {
        shown.push_str("(The statements behind it were not looked at.)\n")?;
    }
    if !found.scans.is_empty() {
        shown.push_str("\n")?;
    }
    Ok(())
}

/// A statement that looks at every row of its table, and the index that would spare it that, if one would.
fn show_scan(
    alloc: Global,
    script: NamedText,
    catalog: &Catalog,
    scan: Scan,
    shown: &mut String,
) -> Result<(), AllocError> {
    let line = line_of(alloc, script, scan.place)?;
    let (file, table) = (script.name, table_name(catalog, scan.table));
    write!(
        shown,
        "SCAN {file}:{line}: every row of {table} is looked at"
    )?;
    if let Some(column) = scan.column {
        let column = column_name(catalog, scan.table, column);
        write!(
            shown,
            "; CREATE INDEX name ON {table} ({column}) would spare that"
        )?;
    }
    shown.push_str("\n")
}

/// The line of a script in which an event begins.
pub fn line_of(alloc: Global, script: NamedText, place: usize) -> Result<usize, AllocError> {
    let piece = Piece::at(alloc, script.bytes, place)?;
    Ok(place_of(script.bytes, piece.whole().start).line)
}

/// A fault or a note in the text that it is of.
fn show_diagnosis(
    texts: Texts,
    diagnosis: &Diagnosis,
    colour: Colour,
    shown: &mut String,
) -> Result<(), AllocError> {
    draw(texts.of(diagnosis.which), diagnosis, colour, shown)?;
    shown.push_str("\n")
}

/// That all is well, and how much there is.
fn show_ending(
    found: &Examination,
    has_script: bool,
    colour: Colour,
    shown: &mut String,
) -> Result<(), AllocError> {
    let (green, end) = (colour.green(), colour.end());
    write!(shown, "{green}OK{end}")?;
    if has_script {
        let (events, sessions) = (found.events, found.sessions);
        write!(shown, ": events {events}, sessions {sessions}")?;
    }
    shown.push_str("\n")
}

fn show_tables(view: &View, colour: Colour, shown: &mut String) -> Result<(), AllocError> {
    let (bold, end) = (colour.bold(), colour.end());
    for table in 0..view.catalog().len() {
        let name = table_name(view.catalog(), table);
        let key = column_name(view.catalog(), table, view.key_column(table));
        let rows = row_count(view, table);
        writeln!(
            shown,
            "{bold}TABLE {name}{end}: rows {rows}, in the order of the key {key}"
        )?;
    }
    Ok(())
}

fn show_assertion(
    alloc: Global,
    view: &View,
    place: usize,
    colour: Colour,
    shown: &mut String,
) -> Result<(), AllocError> {
    let Some(assertion) = view.assertions().get(place) else {
        return Ok(());
    };
    show_verdict(view, place, assertion, colour, shown)?;
    let mut figures = Figures::new(alloc);
    show_figures(alloc, view, assertion, &mut figures, shown)
}

/// What an assertion costs. `figures` has none yet.
fn show_figures(
    alloc: Global,
    view: &View,
    assertion: &Assertion,
    figures: &mut Figures,
    shown: &mut String,
) -> Result<(), AllocError> {
    put_figures(alloc, view, &assertion.form, figures)?;
    show_form(view.catalog(), &assertion.form, figures, shown)?;
    let checked = time_of_check(assertion);
    writeln!(shown, "  checked  {checked}")?;
    for kept in &figures.kept {
        show_kept(view.catalog(), kept, &assertion.form, shown)?;
    }
    for reading in &figures.readings {
        show_reading(view, reading, &assertion.form, shown)?;
    }
    Ok(())
}

/// The assertion's name, and its truth on the rows.
fn show_verdict(
    view: &View,
    place: usize,
    assertion: &Assertion,
    colour: Colour,
    shown: &mut String,
) -> Result<(), AllocError> {
    if place >= view.assertions().len() {
        return Ok(());
    }
    let (bold, end) = (colour.bold(), colour.end());
    let name = &assertion.name;
    let truth = view.verdict(place);
    let begin = if truth == Truth::False {
        colour.red()
    } else {
        colour.green()
    };
    let word = truth.name();
    write!(shown, "\n{bold}ASSERTION {name}{end}: {begin}{word}{end}")?;
    match view.least_bad(place) {
        Some(root) => writeln!(shown, " at {root}"),
        None if truth == Truth::Unknown => writeln!(shown, ", which satisfies it"),
        None => writeln!(shown),
    }
}

/// When an assertion is checked.
pub fn time_of_check(assertion: &Assertion) -> &'static str {
    match (
        assertion.attributes.deferrable,
        assertion.attributes.initially_deferred,
    ) {
        (false, _) => "after each statement; it is not deferrable",
        (true, false) => "after each statement; SET CONSTRAINTS may defer it",
        (true, true) =>
            "at COMMIT: it is initially deferred; SET CONSTRAINTS may make it immediate",
    }
}

fn show_form(
    catalog: &Catalog,
    form: &Form,
    figures: &Figures,
    shown: &mut String,
) -> Result<(), AllocError> {
    let rows = figures.counts.rows;
    let groups = figures.counts.groups;
    match form {
        Form::ByRow { table, .. } => {
            let name = table_name(catalog, *table);
            writeln!(shown, "  form     by rows of {name}: rows {rows}")
        }
        Form::ByGroup { table, group, .. } => {
            let name = table_name(catalog, *table);
            let by = column_name(catalog, *table, *group);
            writeln!(
                shown,
                "  form     by groups of {name} by {by}: rows {rows}, groups {groups}"
            )
        }
        Form::Single { .. } => writeln!(shown, "  form     single: rows {rows}"),
    }
}

/// How a line of a set function begins.
fn upkeep_word(upkeep: Upkeep) -> &'static str {
    match upkeep {
        Upkeep::Groups | Upkeep::RowsAround => "kept     ",
        Upkeep::Nothing => "finds    ",
    }
}

/// What is maintained of a set function.
fn show_kept(
    catalog: &Catalog,
    kept: &MaintainedFunction,
    form: &Form,
    shown: &mut String,
) -> Result<(), AllocError> {
    shown.push_str("  ")?;
    shown.push_str(upkeep_word(kept.upkeep))?;
    push_function(catalog, kept.table, kept.function, shown)?;
    show_grouping(catalog, kept, form, shown)?;
    let before = ", WHERE on ";
    show_columns(catalog, kept.table, &kept.filter, before, shown)?;
    if let Form::ByRow { table, .. } = form {
        let before = ", for each row beside its ";
        show_columns(catalog, *table, &kept.beside, before, shown)?;
    }
    let (rows, groups) = (kept.counts.rows, kept.counts.groups);
    writeln!(shown, ": rows {rows}, groups {groups}")
}

/// The table of a set function, and how its rows go into groups.
fn show_grouping(
    catalog: &Catalog,
    kept: &MaintainedFunction,
    form: &Form,
    shown: &mut String,
) -> Result<(), AllocError> {
    let table = table_name(catalog, kept.table);
    write!(shown, " of {table}")?;
    if let Some(column) = kept.grouping.column() {
        let by = column_name(catalog, kept.table, column);
        write!(shown, " by {by}")?;
    }
    if let (Grouping::Linked(link), Form::ByRow { table, .. }) = (kept.grouping, form) {
        let name = table_name(catalog, *table);
        let outer = column_name(catalog, *table, link.outer);
        write!(shown, ", linked to {name}.{outer}")?;
    }
    Ok(())
}

/// Some columns of a table with the words before them; nothing where there is none.
fn show_columns(
    catalog: &Catalog,
    table: usize,
    columns: &[usize],
    before: &str,
    shown: &mut String,
) -> Result<(), AllocError> {
    if columns.is_empty() {
        return Ok(());
    }
    shown.push_str(before)?;
    push_column_names(catalog, table, columns, shown)
}

/// What a check of a root reads.
fn show_reading(
    view: &View,
    reading: &Reading,
    form: &Form,
    shown: &mut String,
) -> Result<(), AllocError> {
    let catalog = view.catalog();
    let table = table_name(catalog, reading.table);
    match reading.by {
        None => write!(shown, "  reads    all rows of {table}: ")?,
        Some(column) => {
            let by = column_name(catalog, reading.table, column);
            if is_root(form, reading) && column == view.key_column(reading.table) {
                write!(shown, "  reads    one row of {table} by its key {by}: ")?;
            } else {
                write!(shown, "  reads    the rows of {table} with one {by}: ")?;
            }
        }
    }
    if reading.columns.is_empty() {
        shown.push_str("no column")?;
    }
    push_column_names(catalog, reading.table, &reading.columns, shown)?;
    shown.push_str("\n")
}

/// Whether a reading is of the row of a root.
fn is_root(form: &Form, reading: &Reading) -> bool {
    match form {
        Form::ByRow { table, .. } => *table == reading.table,
        Form::ByGroup { .. } | Form::Single { .. } => false,
    }
}
