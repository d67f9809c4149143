//! Where a column's name is looked up.

ghost use Rattle.std.specs.Prelude.{◌≡◌, ◌≢◌, ◌∷◌, IfOk, IfErr, Some, None, unwrap_or};
ghost use Rattle.value.specs.declared.refusals.Refusal.TheVariants.{NoMemory};
ghost use Rattle.form_check.specs.Columns.{outer_column};
ghost use Rattle.form_check.specs.Scopes.{column_error, column_fault, is_name_of, own_column};
ghost use Rattle.form_check.specs.ShownScopes.{lent_scope, lent_scopes};

use std::alloc::{AllocError, Global};
use syntax::ColumnName;
use table::Schema;
use value::{Refusal, Text};

/// A table whose columns names can mean, with the name that it is exposed by there: its correlation name where one is
/// written, else its own (SQL-92, 6.3).
#[derive(Clone, Copy)]
pub struct Scope<'a> {
    pub exposed_name: &'a Text,
    pub schema: &'a Schema,
}

impl<'a> Scope<'a> {
    /// Whether a column's name is of this table, seen from where the table is the innermost: the table goes by its
    /// qualifier, or, without one, has such a column.
    pub fn is_named(&self, column: &ColumnName) -> bool
        ensures { result ≡ is_name_of column.now.qualifier column.now.name (lent_scope self.now) }
    {
        match &column.qualifier {
            Some(qualifier) => *self.exposed_name == *qualifier,
            None => self.schema.column(&column.name).is_some(),
        }
    }

    /// The place of the column that a name means, if the name is of this table, the innermost, and the table has it.
    pub fn own(&self, column: &ColumnName) -> Option<usize>
        ensures { result ≡ own_column (lent_scope self.now) column.now }
    {
        if self.is_named(column) {
            self.schema.column(&column.name)
        } else {
            None
        }
    }

    /// The place of the column of another table, further out, that a name means, if the name is not of this one.
    pub fn outer(&self, root: &Scope, column: &ColumnName) -> Option<usize>
        ensures { result ≡ outer_column (lent_scope self.now) (lent_scope root.now) column.now }
    {
        if self.is_named(column) {
            return None;
        }
        root.own(column)
    }
}

/// The name that a query exposes its table by: its correlation name, if one is written, else the table's own
/// (SQL-92, 6.3).
pub fn exposed_name<'a>(correlation_name: &'a Option<Text>, table: &'a Text) -> &'a Text
    ensures { result.now ≡ unwrap_or correlation_name.now table.now }
{
    match correlation_name {
        Some(correlation_name) => correlation_name,
        None => table,
    }
}

/// The scopes with one more inside them.
pub fn put_inside<'a>(
    alloc: Global,
    inner: Scope<'a>,
    outer: &[Scope<'a>],
) -> Result<Vec<Scope<'a>>, AllocError>
    ensures { IfOk result (λ scopes. lent_scopes scopes.items ≡ lent_scope inner.entry ∷ lent_scopes outer.now) }
{
    let mut scopes = Vec::new(alloc);
    scopes.push(inner)?;
    for scope in outer {
        scopes.push(*scope)?;
    }
    Ok(scopes)
}

/// Refuses a column's name that means nothing: UnknownName of the qualifier if no table goes by it, else of the column.
pub fn look_up_column(scopes: &[Scope], column: &ColumnName) -> Result<(), Refusal>
    ensures known { IfOk result (λ _. column_fault column.now (lent_scopes scopes.now) ≡ None) }
    ensures refused { IfErr result (λ refusal.
        refusal ≢ NoMemory → column_fault column.now (lent_scopes scopes.now) ≡ Some refusal) }
{
    for scope in scopes {
        if scope.is_named(column) {
            return look_up_in(scope, &column.name);
        }
    }
    let name = match &column.qualifier {
        Some(qualifier) => qualifier,
        None => &column.name,
    };
    Err(Refusal::UnknownName { name: name.copy()? })
}

/// Refuses the name of a column that this table does not have.
fn look_up_in(scope: &Scope, name: &Text) -> Result<(), Refusal>
    ensures known { IfOk result (λ _. column_error name.now (lent_scope scope.now) ≡ None) }
    ensures refused { IfErr result (λ refusal.
        refusal ≢ NoMemory → column_error name.now (lent_scope scope.now) ≡ Some refusal) }
{
    if scope.schema.column(name).is_some() {
        return Ok(());
    }
    Err(Refusal::UnknownName { name: name.copy()? })
}
