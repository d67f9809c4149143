//! What stands for an assertion: its bad roots from scratch, the test of one root, and what its mode calls.

use crate::forms::{GroupRule, RootKind, RowRule, RuleSql, SingleRule, root_kind};
use crate::totals;
use assertion::{Assertion, Form};
use delta::View;
use printout::Printout;
use value::Text;

/// An assertion with its number: rules are counted from 1, in the order of their creation.
#[derive(Clone, Copy)]
pub struct Rule<'a> {
    pub number: usize,
    pub assertion: &'a Assertion,
}

impl<'a> Rule<'a> {
    /// The assertion at a place in the order of creation.
    pub fn at(place: usize, assertion: &'a Assertion) -> Rule<'a> {
        Rule {
            number: place.saturating_add(1),
            assertion,
        }
    }
}

/// Adds what an assertion has for itself.
pub fn add_rule(sql: &mut Printout, view: &View, rule: Rule<'_>) {
    sql.add("\n-- Rule ");
    sql.show(rule.number);
    sql.add(", ");
    sql.show(&rule.assertion.name);
    sql.add(": ");
    add_choice(sql, view, rule);
    add_form(sql, view, rule);
    if rule.assertion.attributes.deferrable {
        add_call(sql, rule, root_kind(view, &rule.assertion.form));
    }
}

/// Adds how the rule is checked and why, and the totals of a single condition.
fn add_choice(sql: &mut Printout, view: &View, rule: Rule<'_>) {
    match &rule.assertion.form {
        Form::ByRow { .. } => sql.add(
            "by rows, checked at the keys that changed rows have or are linked to.\n",
        ),
        Form::ByGroup { .. } => sql.add("by groups, checked at the groups of changed rows.\n"),
        Form::Single { queries, .. } if totals::are_kept(queries.as_slice()) => {
            sql.add(totals::WHY_KEPT);
            totals::add_table(sql, view, rule.number, queries.as_slice());
        }
        Form::Single { .. } => sql.add(totals::WHY_NOT_KEPT),
    }
}

/// Adds what evaluates a form.
fn add_form(sql: &mut Printout, view: &View, rule: Rule<'_>) {
    let form = &rule.assertion.form;
    let type_name = root_kind(view, form).type_name();
    match form {
        Form::ByRow {
            table,
            condition,
            queries,
        } => {
            let by_row = RowRule {
                view,
                table: *table,
                condition,
                queries: queries.as_slice(),
            };
            add_tests(sql, rule.number, type_name, &by_row);
        }
        Form::ByGroup {
            table,
            filter,
            group,
            having,
            aggregates,
        } => {
            let by_group = GroupRule {
                view,
                table: *table,
                filter,
                group: *group,
                having,
                aggregates: aggregates.as_slice(),
            };
            add_tests(sql, rule.number, type_name, &by_group);
        }
        Form::Single { condition, queries } => {
            let single = SingleRule {
                view,
                rule: rule.number,
                condition,
                queries: queries.as_slice(),
            };
            add_tests(sql, rule.number, type_name, &single);
        }
    }
}

/// Adds the view of all bad roots, and the test of one. Its reads go by an index, however small a table is: a scan of a
/// whole table would meet every change of it under SERIALIZABLE. Where there is no index a scan then looks dear enough
/// to be compiled, which takes far longer than the scan: hence no jit.
fn add_tests<R: RuleSql>(sql: &mut Printout, rule: usize, type_name: &str, form: &R) {
    sql.add("CREATE VIEW skewguard_bad_roots_");
    sql.show(rule);
    sql.add(" AS ");
    form.add_bad_roots(sql);
    sql.add(";\nCREATE FUNCTION skewguard_is_bad_");
    sql.show(rule);
    sql.add_all(&["(candidate ", type_name]);
    sql.add(
        ") RETURNS boolean
LANGUAGE plpgsql STABLE SET search_path FROM CURRENT SET enable_seqscan = off SET jit = off AS $skewguard$
BEGIN
",
    );
    form.add_is_bad(sql);
    sql.add("END\n$skewguard$;\n");
}

/// Adds how a variable or a column with a root is written.
pub fn add_written(sql: &mut Printout, kind: RootKind, root: &str) {
    match kind {
        RootKind::Number | RootKind::Text => sql.add_all(&["skewguard_written(", root, ")"]),
        RootKind::Whole => sql.add("'ALL'"),
    }
}

/// Adds the refusal of a rule, where a bad root was found.
pub fn add_refusal(sql: &mut Printout, kind: RootKind, name: &Text) {
    sql.add("    IF FOUND THEN\n        PERFORM skewguard_refuse('");
    sql.show(name);
    sql.add("', ");
    add_written(sql, kind, kind.variable());
    sql.add(");\n    END IF;\n");
}

/// Adds the constraint trigger of a deferrable rule, which PostgreSQL calls at once or later, as the rule's mode is.
fn add_call(sql: &mut Printout, rule: Rule<'_>, kind: RootKind) {
    sql.add("CREATE FUNCTION skewguard_check_");
    sql.show(rule.number);
    sql.add(
        "() RETURNS trigger
LANGUAGE plpgsql SECURITY DEFINER SET search_path FROM CURRENT AS $skewguard$
DECLARE
    least_number bigint;
    least_text text COLLATE \"C\";
BEGIN
    IF NOT skewguard_is_newest(NEW) THEN
        RETURN NULL;
    END IF;
",
    );
    add_noted_check(sql, rule.number, kind);
    add_refusal(sql, kind, &rule.assertion.name);
    sql.add("    DELETE FROM pg_temp.skewguard_notes AS n WHERE n.rules = TG_RELID AND n.rule = ");
    sql.show(rule.number);
    sql.add(";\n    RETURN NULL;\nEND\n$skewguard$;\n");
    add_constraint(sql, rule);
}

/// Adds the look for the least bad root among those that are noted of a rule.
fn add_noted_check(sql: &mut Printout, rule: usize, kind: RootKind) {
    let column = kind.column();
    sql.add_all(&["    SELECT n.", column, " INTO ", kind.variable()]);
    sql.add(" FROM pg_temp.skewguard_notes AS n\n        WHERE n.rules = TG_RELID AND n.rule = ");
    sql.show(rule);
    sql.add(" AND skewguard_is_bad_");
    sql.show(rule);
    sql.add_all(&["(n.", column, ")\n        ORDER BY n.", column]);
    sql.add(" NULLS FIRST LIMIT 1;\n");
}

fn add_constraint(sql: &mut Printout, rule: Rule<'_>) {
    let mode = if rule.assertion.attributes.initially_deferred {
        "DEFERRED"
    } else {
        "IMMEDIATE"
    };
    sql.add("CREATE CONSTRAINT TRIGGER ");
    sql.add_name(&rule.assertion.name);
    sql.add(" AFTER INSERT ON skewguard_due\n    DEFERRABLE INITIALLY ");
    sql.add_all(&[mode, " FOR EACH ROW WHEN (NEW.rule = "]);
    sql.show(rule.number);
    sql.add(")\n    EXECUTE FUNCTION skewguard_check_");
    sql.show(rule.number);
    sql.add("();\n");
}

/// Adds the view of all verdicts, each evaluated from scratch, with the least bad root of a rule that is false.
pub fn add_verdicts(sql: &mut Printout, view: &View) {
    sql.add(
        "\n-- Each rule from scratch: TRUE, FALSE or NULL for unknown, and its least bad root where it is false.
CREATE VIEW skewguard_verdicts (place, rule, verdict, root) AS
    SELECT NULL::integer, NULL::text, NULL::boolean, NULL::text WHERE false",
    );
    for (place, assertion) in view.assertions().iter().enumerate() {
        add_verdict(sql, view, Rule::at(place, assertion));
    }
    sql.add(";\n");
}

fn add_verdict(sql: &mut Printout, view: &View, rule: Rule<'_>) {
    sql.add("\n    UNION ALL SELECT ");
    sql.show(rule.number);
    sql.add(", '");
    sql.show(&rule.assertion.name);
    sql.add("', ");
    add_truth(sql, view, rule);
    sql.add(",\n        (SELECT ");
    add_written(sql, root_kind(view, &rule.assertion.form), "b.root");
    sql.add(" FROM skewguard_bad_roots_");
    sql.show(rule.number);
    sql.add(" AS b ORDER BY b.root NULLS FIRST LIMIT 1)");
}

/// Adds the truth of a rule, evaluated from scratch.
fn add_truth(sql: &mut Printout, view: &View, rule: Rule<'_>) {
    match &rule.assertion.form {
        Form::ByRow { .. } | Form::ByGroup { .. } => {
            sql.add("NOT EXISTS (SELECT FROM skewguard_bad_roots_");
            sql.show(rule.number);
            sql.add(")");
        }
        Form::Single { condition, queries } => {
            let single = SingleRule {
                view,
                rule: rule.number,
                condition,
                queries: queries.as_slice(),
            };
            single.add_condition(sql);
        }
    }
}
