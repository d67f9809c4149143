//! Set functions in the slots of what is over groups of rows.

ghost use Rattle.form_check.specs.ShownScopes.{lent_scope};
ghost use Rattle.form_check.specs.Forms.{aggregate_of};

use crate::leaves::Leaf;
use crate::queries::of_column;
use crate::scopes::Scope;
use crate::slots::Slots;
use std::alloc::Global;
use table::Aggregate;
use value::Refusal;

/// The set functions of groups of a table's rows.
#[derive(Clone, Copy)]
pub struct Aggregates<'a> {
    pub scope: Scope<'a>,
}

impl<'a> Slots for Aggregates<'a> {
    type Slot = Aggregate;

    ghost slot = { λ s. aggregate_of (lent_scope s.scope) };

    fn slot(&self, _alloc: Global, leaf: &Leaf) -> Result<Aggregate, Refusal> {
        match leaf {
            Leaf::Rows => Ok(Aggregate::CountRows),
            Leaf::Of(function, argument) => match self.scope.own(&argument.column) {
                Some(column) => Ok(of_column(*function, argument.quantifier, column)),
                None => Err(Refusal::OutsideClass),
            },
            Leaf::Exists(_) | Leaf::Value(_) => Err(Refusal::OutsideClass),
        }
    }
}
