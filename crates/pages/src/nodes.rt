//! Nodes of the tree.

ghost use Rattle.std.specs.Prelude.{◌≡◌, ◌<◌, ◌≤◌, ◌+◌, ◌^◌, ℕ, Some, [], ◌∷◌, ◌++◌, map, take, drop, length, OnOk, OnErr, IfOk, IfSome};
ghost use Rattle.std.specs.Arc.{arc_value};
ghost use Rattle.std.specs.Option.{option_copied};
ghost use Rattle.pages.specs.Levels.{entries_of, IsNarrow, IsWide};
ghost use Rattle.pages.specs.Reach.{key_of, entry_of, AreInOrder};
ghost use Rattle.pages.specs.Shapes.{page_tree, tree_over, IsPage, IsOver, HasRoom};
ghost use Rattle.pages.specs.Cuts.{AreHalves};
ghost use Rattle.value.specs.Ordered.{at as item_at, put};
ghost use Rattle.value.specs.ValueOrder.{value_cmp};

use crate::copies::{copy_page, keys_before, keys_from, share, share_from};
use crate::parts::{make_way, put_page, seps_left, settle};
use crate::search::{find, node_at, nodes_half, page_half, route};
use std::alloc::{AllocError, Global};
use std::marker::Model;
use std::sync::Arc;
use value::{Copied, Value};

/// The most entries of a page, and the most nodes below a node. A smaller number makes versions cheaper, and changes in
/// place and loading dearer (docs/PERFORMANCE.md).
pub const MOST: usize = 15;

/// A node.
#[cycle(pages)]
#[derive(Drop)]
pub struct Node<V> {
    shape: Shape<V>,
}

/// A page of entries; or how many entries there are, the keys that part the nodes below, and those nodes. Versions
/// share the keys until a node below is cut or goes.
#[cycle(pages)]
#[derive(Drop)]
pub enum Shape<V> {
    Leaf(Vec<(Value, V)>),
    Inner(usize, Arc<Vec<Value>>, Vec<Arc<Node<V>>>),
}

impl<V> Model for Node<V> {
    ghost use Rattle.pages.specs.Levels.{Tree};

    ghost Value = { Tree V };

    ghost use Rattle.pages.specs.Shapes.{tree_of, IsWhole};

    ghost view = { λ node. tree_of node.shape };

    ghost invariant = { λ node. IsWhole node.shape };

    ghost size = { λ tree. tree.0.0 };

    ghost use Rattle.pages.specs.Falls.{deep_le-height};

    ghost size_decreases = { λ a h. deep_le-height a.shape };
}

impl<V> Node<V> {
    /// How many entries there are.
    pub fn count(&self) -> usize
        ensures count { result ≡ length self.now.1 }
        ensures order { AreInOrder self.now.1 }
    {
        match &self.shape {
            Shape::Leaf(page) => page.len(),
            Shape::Inner(count, _, _) => *count,
        }
    }

    /// How many entries, or nodes, it holds.
    pub fn width(&self) -> usize
        ensures width { result ≡ self.now.0.1 }
        ensures most { result ≤ 15 }
    {
        match &self.shape {
            Shape::Leaf(page) => page.len(),
            Shape::Inner(_, _, nodes) => nodes.len(),
        }
    }

    /// The node below, where it is the only one.
    pub fn only(&self) -> Option<&Arc<Node<V>>>
        ensures { IfSome result (λ node. (arc_value node.now).1 ≡ self.now.1) }
    {
        match &self.shape {
            Shape::Leaf(_) => None,
            Shape::Inner(_, _, nodes) => only_of(nodes),
        }
    }
}

impl<V> Node<V> {
    /// The entry at a key.
    pub fn get(&self, key: &Value) -> Option<&(Value, V)>
        ensures { option_copied result ≡ item_at value_cmp key_of key.now self.now.1 }
    {
        match &self.shape {
            Shape::Leaf(page) => find(page, key),
            Shape::Inner(_, seps, nodes) => nodes[route(seps, key)].get(key),
        }
    }
}

impl<V> Node<V> {
    /// The entries from a place on, as far as they stand on one page.
    pub fn page_from(&self, at: usize) -> &[(Value, V)]
        requires { at < length self.now.1 }
        ensures some { 0 < length result.now }
        ensures entries { result.now ≡ take (length result.now) (drop at self.now.1) }
    {
        match &self.shape {
            Shape::Leaf(page) => &page[at..],
            Shape::Inner(_, _, nodes) => {
                let (place, rest) = node_at(nodes, at);
                nodes[place].page_from(rest)
            }
        }
    }
}

impl<V: Copied> Node<V> {
    /// An equal node, over the same nodes.
    pub fn copy(&self, alloc: Global) -> Result<Node<V>, AllocError>
        ensures { IfOk result (λ copy. copy ≡ self.now) }
    {
        match &self.shape {
            Shape::Leaf(page) => {
                let page = copy_page(alloc, page)?;
                Ok(Node {
                    shape: Shape::Leaf(page),
                })
            }
            Shape::Inner(count, seps, nodes) => {
                let seps = Arc::try_clone(seps)?;
                let nodes = share(alloc, nodes)?;
                Ok(Node {
                    shape: Shape::Inner(*count, seps, nodes),
                })
            }
        }
    }
}

impl<V: Copied> Node<V> {
    /// Puts a value at a key, or takes it away. Where it finds no memory, the entries are as they were.
    pub fn put(&mut self, alloc: Global, key: &Value, new: Option<V>) -> Result<(), AllocError>
        requires room { HasRoom new self.old }
        requires short { length self.old.1 < 2 ^ 63 }
        ensures height { self.new.0.0 ≡ self.old.0.0 }
        ensures changed { OnOk result (self.new.1 ≡ put value_cmp key_of key.now (entry_of key.now new) self.old.1) }
        ensures same { OnErr result (self.new.1 ≡ self.old.1) }
    {
        match &mut self.shape {
            Shape::Leaf(page) => return put_page(page, key, new),
            Shape::Inner(count, seps, nodes) => {
                let at = make_way(alloc, seps, nodes, key, new.is_some())?;
                let before = nodes[at].count();
                let left = seps_left(alloc, seps, at, before, new.is_some())?;
                match Arc::get_mut(&mut nodes[at]) {
                    Some(node) => node.put(alloc, key, new)?,
                    None => return Err(AllocError),
                }
                settle(count, seps, nodes, at, before, left);
                Ok(())
            }
        }
    }
}

impl<V: Copied> Node<V> {
    /// Takes what is behind a place in it off, and answers the key that parts the two; `next` is the key to come.
    pub fn cut_off(&mut self, alloc: Global, next: &Value) -> Result<(Value, Node<V>), AllocError>
        requires { IsWide self.old }
        ensures cut { IfOk result (λ half. AreHalves self.old self.new half.0 half.1) }
        ensures same { OnErr result (self.new ≡ self.old) }
    {
        match &mut self.shape {
            Shape::Leaf(page) => cut_page(page, next),
            Shape::Inner(count, seps, nodes) => cut_nodes(alloc, count, seps, nodes, next),
        }
    }
}

/// Takes the entries behind a place off a page, and answers the least key there.
fn cut_page<V: Copied>(
    page: &mut Vec<(Value, V)>,
    next: &Value,
) -> Result<(Value, Node<V>), AllocError>
    requires wide { 1 < length page.old.items }
    requires whole { IsPage page.old.items }
    ensures cut { IfOk result (λ half.
        AreHalves (page_tree page.old.items) (page_tree page.new.items) half.0 half.1) }
    ensures whole { IsPage page.new.items }
    ensures same { OnErr result (page.new.items ≡ page.old.items) }
{
    let half = page_half(page, next);
    let key = page[half].0.copy()?;
    let behind = page.split_off(half)?;
    Ok((
        key,
        Node {
            shape: Shape::Leaf(behind),
        },
    ))
}

/// Takes the nodes behind a place off those below a node, and answers the key that parts the two.
fn cut_nodes<V: Copied>(
    alloc: Global,
    count: &mut usize,
    seps: &mut Arc<Vec<Value>>,
    nodes: &mut Vec<Arc<Node<V>>>,
    next: &Value,
) -> Result<(Value, Node<V>), AllocError>
    requires wide { 1 < length (map arc_value nodes.old.items) }
    requires whole { IsOver count.old (arc_value seps.old).items (map arc_value nodes.old.items) }
    ensures cut { IfOk result (λ half. AreHalves
        (tree_over (map arc_value nodes.old.items)) (tree_over (map arc_value nodes.new.items)) half.0 half.1) }
    ensures whole { IsOver count.new (arc_value seps.new).items (map arc_value nodes.new.items) }
    ensures same { OnErr result (map arc_value nodes.new.items ≡ map arc_value nodes.old.items) }
{
    let at = nodes_half(seps, next);
    let key = seps[at].copy()?;
    let front = keys_before(alloc, seps, at)?;
    let seps_before = Arc::new(alloc, front)?;
    let rear = keys_from(alloc, seps, at + 1)?;
    let seps_behind = Arc::new(alloc, rear)?;
    let nodes_behind = share_from(alloc, nodes, at + 1)?;
    let behind = count_of(&nodes_behind)?;
    *seps = seps_before;
    nodes.truncate(at + 1);
    *count -= behind;
    Ok((
        key,
        Node {
            shape: Shape::Inner(behind, seps_behind, nodes_behind),
        },
    ))
}

/// How many entries there are below the nodes.
fn count_of<V>(nodes: &[Arc<Node<V>>]) -> Result<usize, AllocError>
    ensures { IfOk result (λ count. count ≡ length (entries_of (map arc_value nodes.now))) }
{
    let mut count: usize = 0;
    for node in nodes {
        count = match count.checked_add(node.count()) {
            Some(more) => more,
            None => return Err(AllocError),
        };
    }
    Ok(count)
}

/// The node of a list, where it is the only one.
fn only_of<V>(nodes: &[Arc<Node<V>>]) -> Option<&Arc<Node<V>>>
    ensures { IfSome result (λ node. (arc_value node.now).1 ≡ entries_of (map arc_value nodes.now)) }
{
    if nodes.len() == 1 {
        nodes.first()
    } else {
        None
    }
}

/// A page without entries.
pub fn empty<V>(alloc: Global) -> Node<V>
    ensures { result.1 ≡ [] }
{
    Node {
        shape: Shape::Leaf(Vec::new(alloc)),
    }
}

/// A page of one entry.
pub fn page_of_one<V: Copied>(alloc: Global, key: &Value, value: V) -> Result<Node<V>, AllocError>
    ensures { IfOk result (λ node. node.1 ≡ (key.now, value) ∷ []) }
{
    let key = key.copy()?;
    let mut page = Vec::new(alloc);
    page.push((key, value))?;
    Ok(Node {
        shape: Shape::Leaf(page),
    })
}

/// A node over one other, with room beside it.
pub fn over<V: Copied>(alloc: Global, node: &Arc<Node<V>>) -> Result<Node<V>, AllocError>
    ensures room { IfOk result (λ over. IsNarrow over) }
    ensures entries { IfOk result (λ over. over.1 ≡ (arc_value node.now).1) }
{
    let count = node.count();
    let mut nodes = Vec::new(alloc);
    let below = Arc::try_clone(node)?;
    nodes.push(below)?;
    let seps = Arc::new(alloc, Vec::new(alloc))?;
    Ok(Node {
        shape: Shape::Inner(count, seps, nodes),
    })
}
