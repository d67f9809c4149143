//! Copies of assertions of each form.

use crate::shared::{count, tables_of};
use assertion::{Assertion, Form};
use std::alloc::{AllocError, Global};
use std::test::Fail;
use table::Aggregate;

/// A rule by rows with a query that is linked to them, one by groups, and a single one.
const RULES: &str = "CREATE TABLE ACCT (ID INTEGER PRIMARY KEY, OWNER INTEGER, BAL INTEGER);
    CREATE ASSERTION FOLLOWED CHECK (NOT EXISTS (SELECT * FROM ACCT A WHERE
        (SELECT MAX(BAL) FROM ACCT B WHERE B.OWNER = A.ID AND B.BAL > 100) < 0)) INITIALLY DEFERRED;
    CREATE ASSERTION FUNDS CHECK (NOT EXISTS (SELECT OWNER FROM ACCT WHERE ID > 0 GROUP BY OWNER
        HAVING SUM(BAL) < 0 OR COUNT(*) IN (7, 8))) DEFERRABLE;
    CREATE ASSERTION FEW CHECK ((SELECT COUNT(*) FROM ACCT WHERE BAL > 100) * 2 < 9);";

/// The table of the rows or groups, how many queries or aggregates there are, and what the first asks for.
fn parts(form: &Form) -> (usize, usize, Option<Aggregate>) {
    match form {
        Form::ByRow { table, queries, .. } => {
            let queries = queries.as_slice();
            let first = queries.first().map(|query| query.aggregate);
            (*table, queries.len(), first)
        }
        Form::ByGroup {
            table,
            aggregates,
            ..
        } => {
            let aggregates = aggregates.as_slice();
            (*table, aggregates.len(), aggregates.first().copied())
        }
        Form::Single { queries, .. } => {
            let queries = queries.as_slice();
            let first = queries.first().map(|query| query.aggregate);
            (0, queries.len(), first)
        }
    }
}

/// Whether an assertion looks like another one.
fn is_like(copy: &Assertion, assertion: &Assertion) -> bool {
    copy.name == assertion.name
        && copy.attributes.deferrable == assertion.attributes.deferrable
        && copy.attributes.initially_deferred == assertion.attributes.initially_deferred
        && parts(&copy.form) == parts(&assertion.form)
}

/// Whether an assertion's copy looks like it.
fn is_copied(alloc: Global, assertion: &Assertion) -> Result<bool, AllocError> {
    let copy = assertion.copy(alloc)?;
    let is_like = is_like(&copy, assertion);
    drop(copy);
    Ok(is_like)
}

#[test]
fn assertions_of_each_form_are_copied(rt: HostRuntime) -> Result<(), Fail> {
    let view = tables_of(rt.alloc(), RULES)?;
    for assertion in view.assertions() {
        assert!(rt; is_copied(rt.alloc(), assertion)?);
    }
    count(&rt, view.assertions().len(), 3);
    Ok(())
}
