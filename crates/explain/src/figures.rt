//! The figures of an assertion that would be false.

use crate::conditions::{Scope, add_condition};
use crate::parts::{Part, Share, count_in, push_lists, push_parts, push_rows};
use crate::stories::{MOST_LINES, Story, add_count, add_left_out};
use crate::violations::Violation;
use assertion::Form;
use delta::View;
use groups::Total;
use history::{add_row, add_table, column_name};
use printout::{Printout, opening_of};
use std::alloc::{AllocError, Global};
use table::{Aggregate, Cond, Expr, Row, SlotValue};
use value::{Comparison, Root, Text, Value};

/// Adds the rule, its figures at the root, and the rows that they are of, on a view on which it would be false.
pub fn add_violation(
    alloc: Global,
    story: Story<'_>,
    violation: Violation<'_>,
    out: &mut Printout,
) -> Result<(), AllocError> {
    add_rule(story, violation.place, out);
    add_root_line(violation, out);
    add_figures(alloc, violation, out)?;
    add_lists(alloc, violation, out)
}

/// Adds the text of an assertion, and where it stands.
fn add_rule(story: Story<'_>, place: usize, out: &mut Printout) {
    let definitions = &story.texts.definitions;
    if let Some(line) = definitions.rule_line(place) {
        out.add("  the rule, line ");
        out.show(line);
        out.add(" of DEFS: ");
        definitions.add_rule(place, out);
        out.add("\n");
    }
}

/// Adds where the assertion would be false.
fn add_root_line(violation: Violation<'_>, out: &mut Printout) {
    let view = violation.view;
    match (violation.form, violation.root) {
        (Form::ByRow { table, .. }, Root::Of(key)) => {
            out.add("  would be false at row ");
            out.show(key);
            out.add(" of ");
            add_table(view, *table, out);
            out.add(": ");
            if let Some(row) = view.row(*table, key) {
                add_row(row, out);
            }
            out.add("\n");
        }
        (Form::ByGroup { table, group, .. }, Root::Of(value)) => {
            out.add("  would be false at ");
            add_column_value(column_name(view, *table, *group), " ", value, out);
            out.add("\n");
        }
        _ => out.add("  would be false as a whole\n"),
    }
}

/// Adds the name of a column, a sign and a value.
fn add_column_value(name: Option<&Text>, sign: &str, value: &Value, out: &mut Printout) {
    if let Some(name) = name {
        out.show(name);
        out.add(sign);
        out.show(value);
    }
}

/// Adds the set functions of an assertion at a root.
fn add_figures(
    alloc: Global,
    violation: Violation<'_>,
    out: &mut Printout,
) -> Result<(), AllocError> {
    let mut parts = Vec::new(alloc);
    push_parts(violation, &mut parts)?;
    for (slot, part) in parts.iter().enumerate() {
        add_figure(alloc, violation, slot, *part, out)?;
    }
    Ok(())
}

/// Adds a set function with what it would give at the root, and what is asked of it.
fn add_figure(
    alloc: Global,
    violation: Violation<'_>,
    slot: usize,
    part: Part<'_>,
    out: &mut Printout,
) -> Result<(), AllocError> {
    let mut rows = Vec::new(alloc);
    push_rows(alloc, violation.view, part, &mut rows)?;
    out.add("    ");
    add_function(violation.view, part, out);
    add_scope(violation, part, out);
    out.add(" would be ");
    add_total(alloc, part.aggregate, rows.as_slice(), out)?;
    add_demand(violation.form, slot, out);
    out.add("\n");
    Ok(())
}

/// Adds a set function as SQL writes it.
fn add_function(view: &View, part: Part<'_>, out: &mut Printout) {
    out.add(opening_of(part.aggregate));
    if let Some(column) = part.aggregate.column() {
        if let Some(name) = column_name(view, part.table, column) {
            out.show(name);
        }
    }
    out.add(")");
}

/// Adds which rows a set function is of.
fn add_scope(violation: Violation<'_>, part: Part<'_>, out: &mut Printout) {
    let view = violation.view;
    out.add(" of ");
    match (violation.form, part.share) {
        (Form::ByGroup { .. }, Share::With { column, value }) => {
            add_column_value(column_name(view, part.table, column), " ", value, out)
        }
        _ => add_linked(view, part, out),
    }
    if matches!(part.filter, Cond::And(parts) if parts.is_empty()) {
        return;
    }
    out.add(" where ");
    let scope = Scope {
        view,
        table: part.table,
        around: part.row_around(view),
    };
    add_condition(part.filter, &scope, out);
}

/// Adds a table, and the value that its rows have in the column that links them.
fn add_linked(view: &View, part: Part<'_>, out: &mut Printout) {
    add_table(view, part.table, out);
    match part.share {
        Share::All => {}
        Share::With { column, value } => {
            out.add(" with ");
            add_column_value(column_name(view, part.table, column), " = ", value, out);
        }
        Share::None => out.add(" linked to NULL"),
    }
}

/// Adds what a set function gives of some rows.
fn add_total(
    alloc: Global,
    aggregate: Aggregate,
    rows: &[&Row],
    out: &mut Printout,
) -> Result<(), AllocError> {
    let mut total = Total::new(alloc);
    for row in rows {
        count_in(&mut total, aggregate, row)?;
    }
    add_slot_value(&total.answer(aggregate)?, out);
    Ok(())
}

fn add_slot_value(figure: &SlotValue, out: &mut Printout) {
    match figure {
        SlotValue::Count(count) => out.show(count),
        SlotValue::Sum(None) => out.add("NULL"),
        SlotValue::Sum(Some(sum)) => out.show(sum),
        SlotValue::Extreme(value) => out.show(value),
    }
}

/// Adds what the assertion asks of a slot, where its condition is one comparison of it with a literal.
fn add_demand(form: &Form, slot: usize, out: &mut Printout) {
    let (condition, is_forbidden) = match form {
        Form::ByRow { condition, .. } => (condition, true),
        Form::ByGroup { having, .. } => (having, true),
        Form::Single { condition, .. } => (condition, false),
    };
    match condition {
        Cond::And(parts) => {
            if let [part] = parts.as_slice() {
                add_demand_of(part, slot, is_forbidden, out);
            }
        }
        part => add_demand_of(part, slot, is_forbidden, out),
    }
}

/// Adds what a condition asks of a slot.
fn add_demand_of(part: &Cond, slot: usize, is_forbidden: bool, out: &mut Printout) {
    match part {
        Cond::Compare(comparison, Expr::Slot(at), Expr::Literal(value)) if *at == slot => {
            add_bound(words_of(*comparison, is_forbidden), value, out)
        }
        Cond::Compare(comparison, Expr::Literal(value), Expr::Slot(at)) if *at == slot => {
            let turned = mirrored_comparison(*comparison);
            add_bound(words_of(turned, is_forbidden), value, out)
        }
        Cond::Exists(at) if *at == slot => out.add(zero_words(is_forbidden)),
        Cond::Not(inner) => {
            if matches!(inner.get(), Cond::Exists(at) if *at == slot) {
                out.add(zero_words(!is_forbidden));
            }
        }
        _ => {}
    }
}

/// Adds what must hold of a value.
fn add_bound(words: &str, value: &Value, out: &mut Printout) {
    out.add_all(&[", and ", words, " "]);
    out.show(value);
}

/// That a count must be 0, or that it must not.
fn zero_words(must_be: bool) -> &'static str {
    if must_be {
        ", and must be 0"
    } else {
        ", and must not be 0"
    }
}

/// A comparison in words: that it must not hold, or that it must.
fn words_of(comparison: Comparison, is_forbidden: bool) -> &'static str {
    match (comparison, is_forbidden) {
        (Comparison::Equal, true) | (Comparison::NotEqual, false) => "must not be",
        (Comparison::NotEqual, true) | (Comparison::Equal, false) => "must be",
        (Comparison::Less, true) => "must not be below",
        (Comparison::AtLeast, false) => "must be at least",
        (Comparison::AtMost, true) | (Comparison::Greater, false) => "must be above",
        (Comparison::Greater, true) => "must not be above",
        (Comparison::AtMost, false) => "must be at most",
        (Comparison::AtLeast, true) | (Comparison::Less, false) => "must be below",
    }
}

/// The comparison with its sides turned.
fn mirrored_comparison(comparison: Comparison) -> Comparison {
    match comparison {
        Comparison::Equal => Comparison::Equal,
        Comparison::NotEqual => Comparison::NotEqual,
        Comparison::Less => Comparison::Greater,
        Comparison::AtMost => Comparison::AtLeast,
        Comparison::Greater => Comparison::Less,
        Comparison::AtLeast => Comparison::AtMost,
    }
}

/// Adds the lists of rows that count at a root.
fn add_lists(
    alloc: Global,
    violation: Violation<'_>,
    out: &mut Printout,
) -> Result<(), AllocError> {
    let mut lists = Vec::new(alloc);
    push_lists(violation, &mut lists)?;
    for part in &lists {
        add_rows(alloc, violation.view, *part, out)?;
    }
    Ok(())
}

/// Adds the rows that have the root's value, ten at most.
fn add_rows(
    alloc: Global,
    view: &View,
    part: Part<'_>,
    out: &mut Printout,
) -> Result<(), AllocError> {
    let mut rows = Vec::new(alloc);
    push_rows(alloc, view, part, &mut rows)?;
    out.add("    rows of ");
    add_linked(view, part, out);
    add_count(" that count: ", rows.len(), out);
    for row in rows.as_slice().iter().take(MOST_LINES) {
        out.add("      ");
        add_row(row, out);
        out.add("\n");
    }
    add_left_out("      ", rows.len(), out);
    Ok(())
}
