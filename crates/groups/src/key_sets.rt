//! Sets of keys, of which every version stays whole.

ghost use Rattle.std.specs.Prelude.{◌≡◌, ◌==◌, ◌<◌, ◌^◌, [], length, map, IfOk};
ghost use Rattle.std.specs.Iterator.{YieldsFirstRef, item_count};
ghost use Rattle.groups.specs.IndexSteps.{keys_more, keys_less};
ghost use Rattle.pages.specs.Reach.{key_of};

use pages::{Entries, Pages};
use std::alloc::{AllocError, Global};
use std::marker::Model;
use value::{Copied, Value};

/// Keys in order, each once. A copy shares all of it, and a change copies the path that
/// is still shared.
#[derive(Debug, Drop)]
pub struct KeySet {
    pages: Pages<()>,
}

impl Model for KeySet {
    ghost use Rattle.std.specs.Prelude.{List, map};
    ghost use Rattle.pages.specs.Reach.{key_of};
    ghost use Rattle.value.specs.declared.values.Value.{Value as values};

    ghost Value = { List values };

    ghost view = { λ s. map key_of s.pages };
}

impl KeySet {
    /// No keys. It takes no memory.
    pub fn new(alloc: Global) -> KeySet
        ensures { result ≡ [] }
    {
        KeySet {
            pages: Pages::new(alloc),
        }
    }

    /// Whether there is no key. It takes no memory.
    pub fn is_empty(&self) -> bool
        ensures { result ≡ (length self.now == 0) }
    {
        self.pages.len() == 0
    }

    /// The keys, one after the other. It takes no memory.
    pub fn iter(&self) -> Keys<'_>
        ensures rest { result ≡ self.now }
        ensures short { length self.now < 2 ^ 63 }
    {
        Keys::new(&self.pages)
    }

    /// The keys with this one.
    pub fn more(&self, key: &Value) -> Result<KeySet, AllocError>
        ensures { IfOk result (λ keys. keys ≡ keys_more key.now self.now) }
    {
        Ok(KeySet {
            pages: self.pages.with(key, Some(()))?,
        })
    }

    /// The keys without this one.
    pub fn less(&self, key: &Value) -> Result<KeySet, AllocError>
        ensures { IfOk result (λ keys. keys ≡ keys_less key.now self.now) }
    {
        Ok(KeySet {
            pages: self.pages.with(key, None)?,
        })
    }
}

impl Copied for KeySet {
    fn copied(&self) -> Result<KeySet, AllocError> {
        Ok(KeySet {
            pages: self.pages.copy()?,
        })
    }
}

/// The keys of a set that are still to come, in order. It takes no memory.
#[derive(Drop)]
pub struct Keys<'a> {
    entries: Entries<'a, ()>,
}

impl<'a> Model for Keys<'a> {
    ghost use Rattle.std.specs.Prelude.{List, map};
    ghost use Rattle.pages.specs.Reach.{key_of};
    ghost use Rattle.value.specs.declared.values.Value.{Value as values};

    ghost Value = { List values };

    ghost view = { λ left. map key_of left.entries };
}

impl<'a> Keys<'a> {
    /// All keys of a set.
    fn new(pages: &'a Pages<()>) -> Keys<'a>
        ensures rest { result ≡ map key_of pages.now }
        ensures short { length (map key_of pages.now) < 2 ^ 63 }
    {
        Keys {
            entries: pages.iter(),
        }
    }
}

impl<'a> Iterator for Keys<'a> {
    type Item = &'a Value;

    ghost next_gives = { YieldsFirstRef (λ left. left) };

    ghost remaining = { item_count (λ left. left) };

    fn next(&mut self) -> Option<&'a Value> {
        let entry = self.entries.next()?;
        Some(&entry.0)
    }
}
