//! The map.

ghost use Rattle.std.specs.Prelude.{◌≡◌, ◌<◌, ◌^◌, true, [], length, take, drop, OnOk, OnErr, IfOk, IfSome, option_map, option_to_list, slice_get, ◌-◌};
ghost use Rattle.std.specs.Option.{option_copied};
ghost use Rattle.std.specs.Arc.{arc_value};
ghost use Rattle.pages.specs.Levels.{IsNarrow};
ghost use Rattle.pages.specs.Shapes.{entries_in};
ghost use Rattle.pages.specs.Reach.{key_of, value_of, entry_of, AreInOrder};
ghost use Rattle.value.specs.Ordered.{at, put};
ghost use Rattle.value.specs.ValueOrder.{value_cmp};

use crate::entries::Entries;
use crate::nodes::{MOST, Node, over, page_of_one};
use crate::parts::own;
use std::alloc::{AllocError, Global};
use std::fmt;
use std::marker::Model;
use std::sync::Arc;
use value::{Copied, Value};

/// More entries than any memory has.
pub(crate) const TOO_MANY: usize = 1 << 62;

/// The number of entries, and not the entries.
impl<V> fmt::Debug for Pages<V> {
    fn fmt<W: fmt::Write>(&self, f: &mut fmt::Formatter<W>) -> fmt::Result {
        write!(f, "Pages({})", self.len())
    }
}

/// An ordered map. What a copy shares with it stays as it is, whatever is put into either.
#[derive(Drop)]
pub struct Pages<V> {
    alloc: Global,
    root: Option<Arc<Node<V>>>,
}

impl<V> Model for Pages<V> {
    ghost use Rattle.std.specs.Prelude.{◌<◌, ◌^◌, List, length};
    ghost use Rattle.value.specs.declared.values.Value.{Value as values};

    ghost Value = { List (values × V) };

    ghost use Rattle.pages.specs.Shapes.{entries_in};
    ghost use Rattle.pages.specs.Reach.{AreInOrder};

    ghost view = { λ pages. entries_in pages.root };

    ghost invariant = { λ pages. AreInOrder (entries_in pages.root) × length (entries_in pages.root) < 2 ^ 63 };
}

impl<V> Pages<V> {
    /// The map without entries. It takes no memory.
    pub fn new(alloc: Global) -> Pages<V>
        ensures { result ≡ [] }
    {
        Pages { alloc, root: None }
    }

    /// The allocator that the map is made with.
    pub fn allocator(&self) -> Global {
        self.alloc
    }

    /// How many entries there are.
    pub fn len(&self) -> usize
        ensures count { result ≡ length self.now }
        ensures short { length self.now < 2 ^ 63 }
        ensures order { AreInOrder self.now }
    {
        match &self.root {
            Some(root) => root.count(),
            None => 0,
        }
    }

    /// The entries from a place on, as far as they stand together: at least one where there is one.
    pub fn page_from(&self, at: usize) -> &[(Value, V)]
        ensures some { at < length self.now → 0 < length result.now }
        ensures entries { result.now ≡ take (length result.now) (drop at self.now) }
        ensures short { length self.now < 2 ^ 63 }
    {
        match &self.root {
            Some(root) if at < root.count() => root.page_from(at),
            Some(_) | None => &[],
        }
    }

    /// The entries in the order of their keys, one after the other. It takes no memory.
    pub fn iter(&self) -> Entries<'_, V>
        ensures rest { result ≡ self.now }
        ensures short { length self.now < 2 ^ 63 }
    {
        // The proof reads the length from the fields.
        let _ = &self.root;
        Entries::new(self)
    }

    /// The entry of the least key, if there is one. It takes no memory.
    pub fn first(&self) -> Option<&(Value, V)>
        ensures { option_copied result ≡ slice_get self.now 0 }
    {
        self.page_from(0).first()
    }

    /// The entry of the greatest key, if there is one. It takes no memory.
    pub fn last(&self) -> Option<&(Value, V)>
        ensures { option_copied result ≡ slice_get self.now (length self.now - 1) }
    {
        self.page_from(self.len().saturating_sub(1)).first()
    }

    /// What stands at a key. It takes no memory.
    pub fn get(&self, key: &Value) -> Option<&V>
        ensures value { option_copied result ≡ option_map value_of (at value_cmp key_of key.now self.now) }
        ensures order { AreInOrder self.now }
    {
        match &self.root {
            Some(root) => match root.get(key) {
                Some(entry) => Some(&entry.1),
                None => None,
            },
            None => None,
        }
    }

    /// Whether another map shares the entries with this one. It takes no memory.
    pub fn is_shared(&self) -> bool {
        match &self.root {
            Some(root) => Arc::strong_count(root) > 1,
            None => false,
        }
    }

    /// A map equal to this one. It shares all entries.
    pub fn copy(&self) -> Result<Pages<V>, AllocError>
        ensures { IfOk result (λ copy. copy ≡ self.now) }
    {
        let root = match &self.root {
            Some(root) => Some(Arc::try_clone(root)?),
            None => None,
        };
        Ok(Pages {
            alloc: self.alloc,
            root,
        })
    }
}

impl<V: Copied> Pages<V> {
    /// Changes the map: at the key stands this value from now on, or none. Copies see nothing of it. Where memory runs
    /// out, the map is as it was.
    pub fn put(&mut self, key: &Value, value: Option<V>) -> Result<(), AllocError>
        ensures changed { OnOk result (self.new ≡ put value_cmp key_of key.now (entry_of key.now value) self.old) }
        ensures same { OnErr result (self.new ≡ self.old) }
        ensures order { AreInOrder self.new }
        ensures short { length self.new < 2 ^ 63 }
    {
        if self.changes_nothing(key, &value) {
            return Ok(());
        }
        put_root(self.alloc, &mut self.root, key, value)
    }

    /// Whether a change takes away what isn't there.
    fn changes_nothing(&self, key: &Value, value: &Option<V>) -> bool
        ensures { result ≡ true
            → self.now ≡ put value_cmp key_of key.now (entry_of key.now value.now) self.now }
    {
        match value {
            Some(_) => false,
            None => self.get(key).is_none(),
        }
    }

    /// The map after a change: at the key stands this value, or none. This map stays as it is, also where
    /// memory runs out.
    pub fn with(&self, key: &Value, value: Option<V>) -> Result<Pages<V>, AllocError>
        ensures changed { IfOk result (λ pages.
            pages ≡ put value_cmp key_of key.now (entry_of key.now value) self.now) }
        ensures order { IfOk result (λ pages. AreInOrder pages) }
        ensures short { IfOk result (λ pages. length pages < 2 ^ 63) }
    {
        let mut made = self.copy()?;
        made.put(key, value)?;
        Ok(made)
    }
}

/// Puts a value at a key below a root, or takes it away.
fn put_root<V: Copied>(
    alloc: Global,
    root: &mut Option<Arc<Node<V>>>,
    key: &Value,
    value: Option<V>,
) -> Result<(), AllocError>
    requires order { AreInOrder (entries_in root.old) }
    requires short { length (entries_in root.old) < 2 ^ 63 }
    ensures changed { OnOk result (entries_in root.new
        ≡ put value_cmp key_of key.now (entry_of key.now value) (entries_in root.old)) }
    ensures same { OnErr result (entries_in root.new ≡ entries_in root.old) }
    ensures order { AreInOrder (entries_in root.new) }
    ensures short { length (entries_in root.new) < 2 ^ 63 }
{
    put_either(alloc, root, key, value)?;
    lower(root);
    Ok(())
}

/// Puts a value at a key below a root, or into a page of its own.
fn put_either<V: Copied>(
    alloc: Global,
    root: &mut Option<Arc<Node<V>>>,
    key: &Value,
    value: Option<V>,
) -> Result<(), AllocError>
    requires { length (entries_in root.old) < 2 ^ 63 }
    ensures changed { OnOk result (entries_in root.new
        ≡ put value_cmp key_of key.now (entry_of key.now value) (entries_in root.old)) }
    ensures same { OnErr result (entries_in root.new ≡ entries_in root.old) }
    ensures short { length (entries_in root.new) < 2 ^ 63 }
{
    match root {
        Some(node) => put_below(alloc, node, key, value),
        None => {
            *root = first_root(alloc, key, value)?;
            Ok(())
        }
    }
}

/// No root where there is no entry, and none over one node alone.
fn lower<V: Copied>(root: &mut Option<Arc<Node<V>>>)
    ensures { entries_in root.new ≡ entries_in root.old }
{
    if is_empty(root) {
        *root = None;
        return;
    }
    let below = only_below(root);
    if below.is_some() {
        *root = below;
    }
}

/// The only node below a root, shared.
fn only_below<V: Copied>(root: &Option<Arc<Node<V>>>) -> Option<Arc<Node<V>>>
    ensures { IfSome result (λ below. (arc_value below).1 ≡ entries_in root.now) }
{
    match root {
        Some(node) => match node.only() {
            Some(below) => Arc::try_clone(below).ok(),
            None => None,
        },
        None => None,
    }
}

/// Whether there is a root and no entry.
fn is_empty<V>(root: &Option<Arc<Node<V>>>) -> bool
    ensures { result ≡ true → entries_in root.now ≡ [] }
{
    match root {
        Some(node) => node.count() == 0,
        None => false,
    }
}

/// A page of one entry, if there is one.
fn first_root<V: Copied>(
    alloc: Global,
    key: &Value,
    value: Option<V>,
) -> Result<Option<Arc<Node<V>>>, AllocError>
    ensures { IfOk result (λ root. entries_in root ≡ option_to_list (entry_of key.now value)) }
{
    match value {
        Some(value) => Ok(Some(Arc::new(alloc, page_of_one(alloc, key, value)?)?)),
        None => Ok(None),
    }
}

/// Puts a value at a key below a shared node, or takes it away; others who share it see nothing of it.
fn put_below<V: Copied>(
    alloc: Global,
    node: &mut Arc<Node<V>>,
    key: &Value,
    value: Option<V>,
) -> Result<(), AllocError>
    requires { length (arc_value node.old).1 < 2 ^ 63 }
    ensures changed { OnOk result ((arc_value node.new).1
        ≡ put value_cmp key_of key.now (entry_of key.now value) (arc_value node.old).1) }
    ensures same { OnErr result ((arc_value node.new).1 ≡ (arc_value node.old).1) }
    ensures short { length (arc_value node.new).1 < 2 ^ 63 }
{
    if node.count() >= TOO_MANY {
        return Err(AllocError);
    }
    make_ready(alloc, node, value.is_some())?;
    match Arc::get_mut(node) {
        Some(node) => {
            node.put(alloc, key, value)?;
            Ok(())
        }
        None => Err(AllocError),
    }
}

/// Nobody else shares the root then, and where an entry may come it has room for one more below it.
fn make_ready<V: Copied>(
    alloc: Global,
    node: &mut Arc<Node<V>>,
    grows: bool,
) -> Result<(), AllocError>
    ensures same { (arc_value node.new).1 ≡ (arc_value node.old).1 }
    ensures room { OnOk result (grows ≡ true → IsNarrow (arc_value node.new)) }
{
    if grows && node.width() >= MOST {
        *node = Arc::new(alloc, over(alloc, node)?)?;
        return Ok(());
    }
    own(alloc, node)
}
