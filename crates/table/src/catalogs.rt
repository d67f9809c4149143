//! The tables of a database by their names.

ghost use Rattle.std.specs.Prelude.{◌≡◌, ◌++◌, ◌∷◌, [], length, slice_get, OnOk, OnErr, nat_eq, IsSome, IsNone, IsOkUnless, Err};
ghost use Rattle.std.specs.Option.{option_copied};
ghost use Rattle.std.specs.Cmp.Lexicographic.{pointwise};
ghost use Rattle.std.specs.List.{IsDistinct};
ghost use Rattle.table.specs.Rows.{layout_of, layouts_of, names_of, position_of};
ghost use Rattle.value.specs.declared.refusals.Refusal.TheVariants.{NameTaken, NoMemory};

use crate::schemas::Schema;
use indexmap::IndexMap;
use std::alloc::{AllocError, Global};
use std::marker::Model;
use value::{Refusal, Text};

/// The tables in the order of their creation, each name once.
#[derive(Drop)]
pub struct Catalog {
    tables: IndexMap<Text, Schema>,
}

impl Model for Catalog {
    ghost use Rattle.table.specs.Rows.{Tables};

    ghost Value = { Tables };

    ghost view = { λ catalog. catalog.tables.entries };
}

impl Catalog {
    /// A catalog of no table.
    pub fn new(alloc: Global) -> Catalog
        ensures { result ≡ [] }
    {
        Catalog {
            tables: IndexMap::new(alloc),
        }
    }

    /// The number of tables. No two have the same name.
    pub fn len(&self) -> usize
        ensures value { result ≡ length self.now }
        ensures unique { IsDistinct (pointwise nat_eq) (names_of self.now) }
    {
        self.tables.len()
    }

    /// The columns of the table of this name.
    pub fn get(&self, name: &Text) -> Option<&Schema>
        ensures { option_copied result ≡ layout_of name.now self.now }
    {
        self.tables.get(name)
    }

    /// The place of the table of this name in the order of creation.
    pub fn position(&self, name: &Text) -> Option<usize>
        ensures { result ≡ position_of name.now self.now }
    {
        self.tables.get_index_of(name)
    }

    /// The columns of the table at this place in the order of creation.
    pub fn at(&self, table: usize) -> Option<&Schema>
        ensures { option_copied result ≡ slice_get (layouts_of self.now) table }
    {
        match self.tables.get_index(table) {
            Some((_, schema)) => Some(schema),
            None => None,
        }
    }

    /// The name of the table at this place in the order of creation.
    pub fn name(&self, table: usize) -> Option<&Text>
        ensures { option_copied result ≡ slice_get (names_of self.now) table }
    {
        match self.tables.get_index(table) {
            Some((name, _)) => Some(name),
            None => None,
        }
    }

    /// Puts a table behind the others. NameTaken where the name is there already, and the catalog is then, as after
    /// any error, what it was.
    pub fn add(&mut self, name: Text, schema: Schema) -> Result<(), Refusal>
        ensures taken { IsSome (layout_of name self.old) → result ≡ Err (NameTaken name) }
        ensures free { IsNone (layout_of name self.old) → IsOkUnless result NoMemory }
        ensures ok { OnOk result (self.new ≡ self.old ++ (name, schema) ∷ []) }
        ensures err { OnErr result (self.new ≡ self.old) }
    {
        if self.tables.contains_key(&name) {
            return Err(Refusal::NameTaken { name });
        }
        self.add_new(name, schema)?;
        Ok(())
    }

    /// Puts a table whose name is not there yet behind the others. After an error the catalog is what it was.
    pub fn add_new(&mut self, name: Text, schema: Schema) -> Result<(), AllocError>
        requires { IsNone (layout_of name self.old) }
        ensures ok { OnOk result (self.new ≡ self.old ++ (name, schema) ∷ []) }
        ensures err { OnErr result (self.new ≡ self.old) }
    {
        self.tables.insert(name, schema)?;
        Ok(())
    }
}
