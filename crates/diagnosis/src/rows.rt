//! What is wrong with the table of a statement, or with its WHERE.

use crate::conditions::{Site, diagnose_condition};
use crate::contexts::Context;
use crate::names::diagnose_table_name;
use faults::Diagnosis;
use form_check::Scope;
use sqlite_items::Boxed;
use std::alloc::{AllocError, Global};
use std::slice;
use syntax::Condition;
use table::Catalog;
use value::Text;

/// The table of a statement and its WHERE, and where their leaves begin.
#[derive(Clone, Copy)]
pub struct Rows<'a> {
    pub table: &'a Text,
    /// The name that the table goes by in the statement.
    pub exposed_name: &'a Text,
    pub table_at: usize,
    pub keeps: &'a Option<Boxed<Condition>>,
    pub keeps_at: usize,
}

impl<'a> Rows<'a> {
    /// Of a table that goes by its own name.
    pub fn new(
        table: &'a Text,
        table_at: usize,
        keeps: &'a Option<Boxed<Condition>>,
        keeps_at: usize,
    ) -> Rows<'a> {
        Rows {
            table,
            exposed_name: table,
            table_at,
            keeps,
            keeps_at,
        }
    }

    /// The scope of the table, if there is one.
    pub fn scope(&self, catalog: &'a Catalog) -> Option<Scope<'a>> {
        Some(Scope {
            exposed_name: self.exposed_name,
            schema: catalog.get(self.table)?,
        })
    }
}

/// Says what is wrong with a table or its WHERE, if that is found.
pub fn diagnose_rows(
    alloc: Global,
    context: Context,
    rows: Rows,
    diagnosis: &mut Diagnosis,
) -> Result<bool, AllocError> {
    let Some(scope) = rows.scope(context.catalog) else {
        diagnose_table_name(alloc, context, rows.table, rows.table_at, diagnosis)?;
        return Ok(true);
    };
    match rows.keeps {
        Some(keeps) => {
            let site = Site {
                condition: keeps.get(),
                at: rows.keeps_at,
                scopes: slice::from_ref(&scope),
            };
            diagnose_condition(alloc, context, site, diagnosis)
        }
        None => Ok(false),
    }
}
