//! The statements that are prepared.

ghost use Rattle.std.specs.Prelude.{◌≡◌, IfNone, IfOk, OnErr, OnOk, option_copied};
ghost use Rattle.calls.specs.Statements as spec;

use indexmap::IndexMap;
use prepared::Prepared;
use std::alloc::{AllocError, Global};
use std::marker::Model;

/// The prepared statements by their numbers. No number is given twice.
#[derive(Drop)]
pub struct Statements {
    prepared: IndexMap<u64, Prepared>,
    /// The number that comes next.
    next: u64,
}

impl Model for Statements {
    ghost use Rattle.prepared.specs.contracts.prepared.Prepared as prepared_type;
    ghost use Rattle.syntax.specs.contracts.trees.Condition as condition_type;
    ghost use Rattle.syntax.specs.contracts.trees.Expression as expression_type;
    ghost use Rattle.syntax.specs.contracts.trees.Query as query_type;
    ghost use Rattle.std.specs.Coded.{codes};
    ghost use Rattle.calls.specs.Statements.{StatementsState};

    ghost Value = { StatementsState };

    ghost coded = { Prim.hlevel (
      codes,
      condition_type.the_row.coded,
      expression_type.the_row.coded,
      query_type.the_row.coded,
      prepared_type.the_row.coded,
    ) };

    ghost view = { λ s. record { prepared = s.prepared.entries; next = s.next } };
}

impl Statements {
    /// No statement.
    pub fn new(alloc: Global) -> Statements
        ensures { result ≡ spec.no_statements }
    {
        Statements {
            prepared: IndexMap::new(alloc),
            next: 1,
        }
    }

    /// Keeps a statement, and gives its number. An error is that memory ran out, or that all numbers were given.
    /// Nothing has changed then.
    pub fn add(&mut self, prepared: Prepared) -> Result<u64, AllocError>
        ensures number { IfOk result (λ number. number ≡ self.old.next) }
        ensures added { OnOk result (self.new ≡ spec.with_statement prepared self.old) }
        ensures same { OnErr result (self.new ≡ self.old) }
    {
        let number = self.next;
        if number == u64::MAX {
            return Err(refuse_and_drop(prepared));
        }
        self.prepared.insert(number, prepared)?;
        self.next = number + 1;
        Ok(number)
    }

    /// The statement of a number.
    pub fn get(&self, number: u64) -> Option<&Prepared>
        ensures { option_copied result ≡ spec.statement_at number self.now }
    {
        self.prepared.get(&number)
    }

    /// Takes a statement out.
    pub fn remove(&mut self, number: u64) -> Option<Prepared>
        ensures statement { result ≡ spec.statement_at number self.old }
        ensures left { self.new ≡ spec.without_statement number self.old }
        ensures same { IfNone result (self.new ≡ self.old) }
    {
        self.prepared.shift_remove(&number)
    }
}

/// Want of memory, once a value is let go.
fn refuse_and_drop<T: Drop>(_value: T) -> AllocError {
    AllocError
}
