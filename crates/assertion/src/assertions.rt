//! Assertions.

ghost use Rattle.std.specs.Prelude.{◌≡◌, IfOk};

use crate::forms::Form;
use std::alloc::{AllocError, Global};
use value::Text;

/// When an assertion is checked (SQL-92, constraint attributes): after each statement, or at COMMIT where it is
/// deferred. What is initially deferred is deferrable; that is for who makes one to see to.
#[derive(Clone, Copy, Debug, PartialEq, Eq)]
pub struct ConstraintAttributes {
    /// Whether a transaction may defer it.
    pub deferrable: bool,
    /// Whether it is deferred when a transaction begins.
    pub initially_deferred: bool,
}

/// `CREATE ASSERTION name CHECK (form) attributes`.
#[derive(Debug, Drop)]
pub struct Assertion {
    pub name: Text,
    pub attributes: ConstraintAttributes,
    pub form: Form,
}

impl Assertion {
    /// An assertion equal to this one.
    pub fn copy(&self, alloc: Global) -> Result<Assertion, AllocError>
        ensures { IfOk result (λ copy. copy ≡ self.now) }
    {
        Ok(Assertion {
            name: self.name.copy()?,
            attributes: self.attributes,
            form: self.form.copy(alloc)?,
        })
    }
}
