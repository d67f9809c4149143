//! The triggers of a table.
//!
//! After each statement they go by the rules in the order of their creation, on all that the statement has changed
//! together. A rule that is immediate is checked at its candidates. Of one that is deferred the candidates are noted,
//! and it is called: by a row in `skewguard_due`, on which a constraint trigger of the rule's name stands, so that
//! PostgreSQL's own modes say when (`fixed::CALLS`).

use crate::candidates::{add_candidates, is_over};
use crate::changed::ChangedRows;
use crate::forms::{add_key_of, add_table_name, root_kind};
use crate::rules::{Rule, add_refusal};
use crate::totals;
use assertion::{Assertion, Form};
use delta::View;
use printout::Printout;

/// The trigger of a kind of statement: its name, the statement, what of the rows it hands on, and the function that it
/// calls.
#[derive(Clone, Copy)]
struct Trigger {
    name: &'static str,
    statement: &'static str,
    rows: &'static str,
    function: &'static str,
}

const INSERTED: Trigger = Trigger {
    name: "inserted",
    statement: "INSERT",
    rows: "NEW TABLE AS skewguard_changed",
    function: "changed",
};

const DELETED: Trigger = Trigger {
    name: "deleted",
    statement: "DELETE",
    rows: "OLD TABLE AS skewguard_changed",
    function: "changed",
};

const UPDATED: Trigger = Trigger {
    name: "updated",
    statement: "UPDATE",
    rows: "OLD TABLE AS skewguard_old NEW TABLE AS skewguard_new",
    function: "updated",
};

/// Adds the triggers of a table.
pub fn add_triggers(sql: &mut Printout, view: &View, table: usize) {
    add_key_trigger(sql, view, table);
    if is_guarded(view.assertions(), table) {
        sql.add("-- After each statement on ");
        add_table_name(sql, view, table);
        sql.add(".\n");
        add_function(sql, "changed", ChangedRows::once(view, table));
        add_function(sql, "updated", ChangedRows::twice(view, table));
        add_trigger(sql, view, table, &INSERTED);
        add_trigger(sql, view, table, &DELETED);
        add_trigger(sql, view, table, &UPDATED);
        sql.add("CREATE TRIGGER skewguard_truncated BEFORE TRUNCATE ON ");
        add_table_name(sql, view, table);
        sql.add(" FOR EACH STATEMENT EXECUTE FUNCTION skewguard_refuse_truncate();\n");
    }
}

/// Whether a rule is over a table.
fn is_guarded(assertions: &[Assertion], table: usize) -> bool {
    assertions
        .iter()
        .any(|assertion| is_over(&assertion.form, table))
}

/// Adds the trigger that refuses to assign a key.
fn add_key_trigger(sql: &mut Printout, view: &View, table: usize) {
    sql.add("\nCREATE TRIGGER skewguard_key BEFORE UPDATE OF ");
    add_key_of(sql, view, table);
    sql.add(" ON ");
    add_table_name(sql, view, table);
    sql.add(" FOR EACH STATEMENT EXECUTE FUNCTION skewguard_refuse_key();\n");
}

fn add_trigger(sql: &mut Printout, view: &View, table: usize, trigger: &Trigger) {
    sql.add_all(&[
        "CREATE TRIGGER skewguard_",
        trigger.name,
        " AFTER ",
        trigger.statement,
        " ON ",
    ]);
    add_table_name(sql, view, table);
    sql.add_all(&[
        " REFERENCING ",
        trigger.rows,
        "\n    FOR EACH STATEMENT EXECUTE FUNCTION skewguard_",
    ]);
    sql.add_all(&[trigger.function, "_"]);
    sql.show(table.saturating_add(1));
    sql.add("();\n");
}

/// Adds a function of a table's triggers, for rows that are changed in one way.
fn add_function(sql: &mut Printout, name: &str, changed: ChangedRows<'_>) {
    sql.add_all(&["CREATE FUNCTION skewguard_", name, "_"]);
    sql.show(changed.table.saturating_add(1));
    sql.add(
        "() RETURNS trigger
LANGUAGE plpgsql SECURITY DEFINER SET search_path FROM CURRENT AS $skewguard$
DECLARE
    least_number bigint;
    least_text text COLLATE \"C\";
    is_new boolean := false;
BEGIN
    PERFORM skewguard_require_serializable();
",
    );
    add_total_changes(sql, changed);
    add_checks(sql, changed);
    if defers(changed.view.assertions(), changed.table) {
        sql.add("    IF is_new THEN\n        PERFORM skewguard_call_noted();\n    END IF;\n");
    }
    sql.add("    RETURN NULL;\nEND\n$skewguard$;\n");
}

/// Whether a deferrable rule is over a table.
fn defers(assertions: &[Assertion], table: usize) -> bool {
    assertions.iter().any(|assertion| assertion.attributes.deferrable
        && is_over(&assertion.form, table))
}

/// Adds what the changed rows add to totals.
fn add_total_changes(sql: &mut Printout, changed: ChangedRows<'_>) {
    for (place, assertion) in changed.view.assertions().iter().enumerate() {
        if let Form::Single { queries, .. } = &assertion.form {
            if is_over(&assertion.form, changed.table) && totals::are_kept(queries.as_slice()) {
                let rule = Rule::at(place, assertion);
                totals::add_change(sql, changed, rule.number, queries.as_slice());
            }
        }
    }
}

/// Adds the checks and the notes of the rules over a table, in the order of their creation.
fn add_checks(sql: &mut Printout, changed: ChangedRows<'_>) {
    for (place, assertion) in changed.view.assertions().iter().enumerate() {
        if is_over(&assertion.form, changed.table) {
            add_check(sql, changed, Rule::at(place, assertion));
        }
    }
}

/// Adds the part of a rule: its check, and of a deferrable rule the notes in place of it.
fn add_check(sql: &mut Printout, changed: ChangedRows<'_>, rule: Rule<'_>) {
    if rule.assertion.attributes.deferrable {
        add_note(sql, changed, rule);
        sql.add("    ELSE\n");
        add_immediate_check(sql, changed, rule);
        sql.add("    END IF;\n");
    } else {
        add_immediate_check(sql, changed, rule);
    }
}

/// Adds the head of a deferrable rule's part: where it is deferred its candidates are noted.
fn add_note(sql: &mut Printout, changed: ChangedRows<'_>, rule: Rule<'_>) {
    let form = &rule.assertion.form;
    sql.add("    IF NOT EXISTS (\n        ");
    add_candidates(sql, changed, form);
    sql.add(") THEN\n        NULL;\n    ELSIF skewguard_is_noted(");
    sql.show(rule.number);
    sql.add(") OR NOT skewguard_is_immediate(");
    sql.show(rule.number);
    sql.add(") THEN\n        is_new := is_new OR NOT skewguard_is_noted(");
    sql.show(rule.number);
    sql.add(");\n        PERFORM skewguard_open_notes();\n");
    add_insertion(sql, rule.number, root_kind(changed.view, form).column());
    add_candidates(sql, changed, form);
    sql.add(") AS u\n        ON CONFLICT DO NOTHING;\n");
}

/// Adds the head of the statement that puts roots among the notes.
fn add_insertion(sql: &mut Printout, rule: usize, column: &str) {
    sql.add_all(&[
        "        INSERT INTO pg_temp.skewguard_notes (rules, rule, ",
        column,
        ")\n",
    ]);
    sql.add("        SELECT DISTINCT 'skewguard_due'::regclass::oid, ");
    sql.show(rule);
    sql.add(", u.root FROM (\n        ");
}

/// Adds the check of a rule at each of its candidates once.
fn add_immediate_check(sql: &mut Printout, changed: ChangedRows<'_>, rule: Rule<'_>) {
    let kind = root_kind(changed.view, &rule.assertion.form);
    sql.add("    WITH roots AS MATERIALIZED (SELECT DISTINCT u.root FROM (\n        ");
    add_candidates(sql, changed, &rule.assertion.form);
    sql.add(") AS u)\n");
    sql.add_all(&["    SELECT roots.root INTO ", kind.variable()]);
    sql.add(" FROM roots WHERE skewguard_is_bad_");
    sql.show(rule.number);
    sql.add("(roots.root)\n        ORDER BY roots.root NULLS FIRST LIMIT 1;\n");
    add_refusal(sql, kind, &rule.assertion.name);
}
