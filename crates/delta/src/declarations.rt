//! What all versions of a view share.

ghost use Rattle.std.specs.Prelude.{◌≡◌, ◌++◌, ◌∷◌, [], IfOk};
ghost use Rattle.table.specs.Rows.{layouts_of};

use assertion::Assertion;
use std::alloc::{AllocError, Global};
use table::{Catalog, Schema};

/// The tables that there are, and the assertions on them.
#[derive(Drop)]
pub struct Declarations {
    pub catalog: Catalog,
    /// The schemas of the tables, in the order of creation.
    pub schemas: Vec<Schema>,
    pub assertions: Vec<Assertion>,
}

/// The schemas of the tables, in the order of creation.
pub fn schemas_of(alloc: Global, catalog: &Catalog) -> Result<Vec<Schema>, AllocError>
    ensures { IfOk result (λ schemas. schemas.items ≡ layouts_of catalog.now) }
{
    let mut schemas = Vec::new(alloc);
    for table in 0..catalog.len() {
        if let Some(schema) = catalog.at(table) {
            schemas.push(schema.copy()?)?;
        }
    }
    Ok(schemas)
}

/// A catalog equal to this one.
pub fn copy_catalog(alloc: Global, catalog: &Catalog) -> Result<Catalog, AllocError>
    ensures { IfOk result (λ copy. copy ≡ catalog.now) }
{
    let mut copy = Catalog::new(alloc);
    for table in 0..catalog.len() {
        if let Some(name) = catalog.name(table) {
            if let Some(schema) = catalog.at(table) {
                copy.add_new(name.copy()?, schema.copy()?)?;
            }
        }
    }
    Ok(copy)
}

/// Assertions equal to these.
pub fn copy_assertions(
    alloc: Global,
    assertions: &[Assertion],
) -> Result<Vec<Assertion>, AllocError>
    ensures { IfOk result (λ made. made.items ≡ assertions.now) }
{
    let mut made = Vec::new(alloc);
    for assertion in assertions {
        made.push(assertion.copy(alloc)?)?;
    }
    Ok(made)
}
