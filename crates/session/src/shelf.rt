//! The committed tables, for all threads.

ghost use Rattle.std.specs.Prelude.{◌≡◌, IfOk, IsOkUnless};
ghost use Rattle.value.specs.declared.refusals.Refusal.TheVariants.{NoMemory};
ghost use Rattle.boxcar.specs.Table.{Shows};

use crate::items::Item;
use std::alloc::{AllocError, Global};
use std::marker::Model;
use std::sync::Wait;
use value::Refusal;

/// What shows an item of a shelf.
pub type Token = boxcar::Pushed<Item>;

/// The committed versions, which only grow. Threads share it without a lock.
#[derive(Drop)]
pub struct Shelf {
    items: boxcar::Vec<Item>,
}

impl Model for Shelf {
    ghost use Rattle.value.specs.declared.refusals.Refusal.TheVariants.{NoMemory};
    ghost use Rattle.boxcar.specs.Table.{Shelves, shelves_coded};

    ghost Value = { Shelves };

    ghost coded = { shelves_coded };

    ghost view = { λ s. s.items };
}

impl Shelf {
    /// An empty shelf. NoMemory is the only error.
    pub fn new(alloc: Global) -> Result<Shelf, Refusal>
        ensures { IsOkUnless result NoMemory }
    {
        match boxcar::Vec::new(alloc) {
            Ok(items) => Ok(Shelf { items }),
            Err(_) => Err(Refusal::NoMemory),
        }
    }

    /// Puts an item on the shelf.
    pub(crate) fn put<R: Wait>(&self, rt: &R, item: Item) -> Result<Token, AllocError>
        ensures shown { IfOk result (λ token. Shows self.now token) }
        ensures value { IfOk result (λ token. token.value ≡ item) }
    {
        match self.items.push_shown(rt, item) {
            Ok(token) => Ok(token),
            Err(_) => Err(AllocError),
        }
    }

    /// Tokens of one index show one item.
    pub(crate) fn recall_agreement(&self, a: &Token, b: &Token)
        requires a { Shows self.now a.now }
        requires b { Shows self.now b.now }
        requires same { a.now.index ≡ b.now.index }
        ensures { a.now.value ≡ b.now.value }
    {
        self.items.agrees(a, b);
    }

    /// The item of a token.
    pub(crate) fn item(&self, token: &Token) -> &Item
        requires { Shows self.now token.now }
        ensures { result.now ≡ token.now.value }
    {
        self.items.value(token)
    }
}
