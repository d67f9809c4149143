//! Definitions that are taken in one by one.

ghost use Rattle.std.specs.Prelude.{◌≡◌, ◌≢◌, ◌++◌, IfErr, IfOk, OnErr, OnOk, Ok, Err, None, Some};
ghost use Rattle.std.specs.List.{list_any};
ghost use Rattle.std.specs.Str.{bytes_eq};
ghost use Rattle.value.specs.declared.refusals.Refusal.TheVariants.{NoMemory};
ghost use Rattle.definitions.specs.Taken.{index_fault, index_in, nothing_taken, taken_with};

use crate::constraints::{UniqueColumns, note_unique};
use crate::taken::Definitions;
use std::alloc::{AllocError, Global};
use std::marker::Model;
use syntax::Definition;
use value::{Refusal, Text};

/// What the definitions so far define, the names of their indexes, and the columns under UNIQUE, to which a foreign key
/// may refer: so that definitions may be taken in as they are read, and no list of them is needed.
#[derive(Drop)]
pub struct Taking {
    made: Definitions,
    indexes: Vec<Text>,
    unique: Vec<UniqueColumns>,
}

impl Model for Taking {
    ghost use Rattle.table.specs.contracts.conds.Cond as cond_type;
    ghost use Rattle.table.specs.contracts.exprs.Expr as expr_type;
    ghost use Rattle.std.specs.Coded.{codes};
    ghost use Rattle.definitions.specs.Taken.{Taken};

    ghost Value = { Taken };

    ghost coded = { Prim.hlevel (codes, cond_type.the_row.coded, expr_type.the_row.coded) };

    ghost view = { λ t. record { shown = t.made; indexes = t.indexes.items; unique = t.unique.items } };
}

impl Taking {
    /// Before the first definition.
    pub fn new(alloc: Global) -> Taking
        ensures { result ≡ nothing_taken }
    {
        Taking {
            made: Definitions::new(alloc),
            indexes: Vec::new(alloc),
            unique: Vec::new(alloc),
        }
    }

    /// One definition more. No assertion is evaluated. Of the definition's tree nothing is kept but the name of an
    /// index and the names of columns under UNIQUE.
    ///
    /// # Errors
    ///
    /// The fault of the definition, which is the first of several. CREATE TABLE: [`Refusal::NameTaken`] of the table,
    /// then of a column that stands twice, then [`Refusal::UnknownName`] of a column of a PRIMARY KEY, then
    /// [`Refusal::OutsideClass`] unless one column is the key; then the first fault of its constraints. CREATE
    /// ASSERTION: [`Refusal::NameTaken`], and then what `assertcheck::check` answers. INSERT: what
    /// `assertcheck::check_insert` answers, then by columns [`Refusal::NullNotAllowed`] and [`Refusal::OutOfRange`],
    /// and last [`Refusal::DuplicateKey`]. CREATE INDEX: [`Refusal::NameTaken`] where another index has the name, then
    /// [`Refusal::UnknownName`] of the table, then of the column. Or [`Refusal::NoMemory`].
    pub fn with(self, alloc: Global, definition: &Definition) -> Result<Taking, Refusal>
        ensures taken { IfOk result (λ made. taken_with definition.now self ≡ Ok made) }
        ensures refused { IfErr result (λ refusal. refusal ≢ NoMemory
            → taken_with definition.now self ≡ Err refusal) }
    {
        let Taking {
            made,
            mut indexes,
            mut unique,
        } = self;
        require_new_index(&indexes, definition)?;
        note_unique(alloc, &mut unique, definition)?;
        let made = made.with(alloc, definition, &unique)?;
        note_index(&mut indexes, definition)?;
        Ok(Taking {
            made,
            indexes,
            unique,
        })
    }

    /// What they define.
    pub fn into_definitions(self) -> Definitions
        ensures { result ≡ self.shown }
    {
        self.made
    }
}

/// Refuses an index whose name is one of these.
fn require_new_index(names: &[Text], definition: &Definition) -> Result<(), Refusal>
    ensures new { OnOk result (index_fault names.now definition.now ≡ None) }
    ensures refused { IfErr result (λ refusal. refusal ≢ NoMemory
        → index_fault names.now definition.now ≡ Some refusal) }
{
    match definition {
        Definition::Index { name, .. } => {
            if is_index_name(names, name) {
                return Err(Refusal::NameTaken { name: name.copy()? });
            }
            Ok(())
        }
        _ => Ok(()),
    }
}

/// Whether an index has this name.
fn is_index_name(names: &[Text], name: &Text) -> bool
    ensures { result ≡ list_any (λ other. bytes_eq other name.now) names.now }
{
    names.iter().any(|other| *other == *name)
}

/// Puts the name of an index behind those of others.
fn note_index(names: &mut Vec<Text>, definition: &Definition) -> Result<(), AllocError>
    ensures { OnOk result (names.new.items ≡ names.old.items ++ index_in definition.now) }
{
    if let Definition::Index { name, .. } = definition {
        names.push(name.copy()?)?;
    }
    Ok(())
}
