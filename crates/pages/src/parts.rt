//! Changes of pages, and of the nodes below a node, in place.

ghost use Rattle.std.specs.Prelude.{◌≡◌, ◌<◌, ◌≤◌, ◌^◌, ◌+◌, ◌++◌, true, false, [], Some, option_map, option_to_list, slice_get, take, drop, map, length, OnOk, OnErr, IfOk, IfSome, is_some};
ghost use Rattle.std.specs.Arc.{arc_value};
ghost use Rattle.pages.specs.Levels.{entries_of, entries_at, IsNarrow, IsSoAt, IsWide};
ghost use Rattle.pages.specs.Reach.{key_of, entry_of};
ghost use Rattle.pages.specs.Shapes.{page_tree, HasRoom, IsPage};
ghost use Rattle.pages.specs.Parts.{AreBelow, AreFilled, AreFilledBut, AreSame, AreWithout, Leads};
ghost use Rattle.pages.specs.Cuts.{AreHalves};
ghost use Rattle.value.specs.Ordered.{put};
ghost use Rattle.value.specs.ValueOrder.{value_cmp};

use crate::copies::copy_keys;
use crate::nodes::{MOST, Node, empty};
use crate::search::{route, seek, side};
use std::alloc::{AllocError, Global};
use std::sync::Arc;
use value::{Copied, Value};

/// Puts a value at a key of a page, or takes it away.
pub fn put_page<V: Copied>(
    page: &mut Vec<(Value, V)>,
    key: &Value,
    new: Option<V>,
) -> Result<(), AllocError>
    requires room { HasRoom new (page_tree page.old.items) }
    requires whole { IsPage page.old.items }
    ensures changed { OnOk result (page.new.items
        ≡ put value_cmp key_of key.now (entry_of key.now new) page.old.items) }
    ensures same { OnErr result (page.new.items ≡ page.old.items) }
    ensures whole { IsPage page.new.items }
{
    match seek(page, key) {
        Ok(at) => {
            set_at(page, at, key, new);
            Ok(())
        }
        Err(at) => match new {
            Some(value) => {
                let key = key.copy()?;
                page.insert(at, (key, value))?;
                Ok(())
            }
            None => Ok(()),
        },
    }
}

/// The entry at a place has this value, or is taken away.
fn set_at<V: Drop>(page: &mut Vec<(Value, V)>, at: usize, key: &Value, new: Option<V>)
    requires { option_map key_of (slice_get page.old.items at) ≡ Some key.now }
    ensures { page.new.items ≡ take at page.old.items
        ++ (option_to_list (entry_of key.now new) ++ drop (at + 1) page.old.items) }
{
    match new {
        Some(value) => page[at].1 = value,
        None => drop(page.remove(at)),
    }
}

/// Copies the node where it is shared.
pub fn own<V: Copied>(alloc: Global, node: &mut Arc<Node<V>>) -> Result<(), AllocError>
    ensures { arc_value node.new ≡ arc_value node.old }
{
    if Arc::strong_count(node) > 1 {
        *node = Arc::new(alloc, node.copy(alloc)?)?;
    }
    Ok(())
}

/// The place of the node that the key belongs to. Nobody else shares that node then, and where an entry may come it has
/// room.
pub fn make_way<V: Copied>(
    alloc: Global,
    seps: &mut Arc<Vec<Value>>,
    nodes: &mut Vec<Arc<Node<V>>>,
    key: &Value,
    grows: bool,
) -> Result<usize, AllocError>
    requires below { AreBelow (arc_value seps.old).items (map arc_value nodes.old.items) }
    requires filled { AreFilled (map arc_value nodes.old.items) }
    requires room { grows ≡ true → length (map arc_value nodes.old.items) < 15 }
    ensures same { AreSame (arc_value seps.old).items (arc_value seps.new).items
        (map arc_value nodes.old.items) (map arc_value nodes.new.items) }
    ensures place { IfOk result (λ at. Leads key.now (arc_value seps.new).items at) }
    ensures within { IfOk result (λ at. at < length nodes.new.items) }
    ensures room { IfOk result (λ at. grows ≡ true → IsSoAt IsNarrow (map arc_value nodes.new.items) at) }
{
    let at = route(seps, key);
    own_at(alloc, nodes, at)?;
    if grows && nodes[at].width() >= MOST {
        return cut(alloc, seps, nodes, at, key);
    }
    Ok(at)
}

/// Copies the node at a place where it is shared.
fn own_at<V: Copied>(
    alloc: Global,
    nodes: &mut Vec<Arc<Node<V>>>,
    at: usize,
) -> Result<(), AllocError>
    requires { at < length nodes.old.items }
    ensures { map arc_value nodes.new.items ≡ map arc_value nodes.old.items }
{
    own(alloc, &mut nodes[at])
}

/// Cuts the node that the key belongs to in two, and answers the place of the one that it belongs to then. Whoever
/// shares the separators keeps them as they are.
fn cut<V: Copied>(
    alloc: Global,
    seps: &mut Arc<Vec<Value>>,
    nodes: &mut Vec<Arc<Node<V>>>,
    at: usize,
    key: &Value,
) -> Result<usize, AllocError>
    requires place { Leads key.now (arc_value seps.old).items at }
    requires wide { IsSoAt IsWide (map arc_value nodes.old.items) at }
    requires room { length (map arc_value nodes.old.items) < 15 }
    requires below { AreBelow (arc_value seps.old).items (map arc_value nodes.old.items) }
    requires filled { AreFilled (map arc_value nodes.old.items) }
    ensures same { AreSame (arc_value seps.old).items (arc_value seps.new).items
        (map arc_value nodes.old.items) (map arc_value nodes.new.items) }
    ensures place { IfOk result (λ at. Leads key.now (arc_value seps.new).items at) }
    ensures within { IfOk result (λ at. at < length nodes.new.items) }
    ensures room { IfOk result (λ at. IsSoAt IsNarrow (map arc_value nodes.new.items) at) }
{
    if let Some(own) = Arc::get_mut(seps) {
        return cut_at(alloc, own, nodes, at, key);
    }
    let mut parted = Arc::new(alloc, copy_keys(alloc, seps)?)?;
    let place = match Arc::get_mut(&mut parted) {
        Some(parted) => cut_at(alloc, parted, nodes, at, key)?,
        None => return Err(AllocError),
    };
    *seps = parted;
    Ok(place)
}

/// Cuts the node at a place in two, with a separator more. Where it finds no memory, the separators are as they were.
fn cut_at<V: Copied>(
    alloc: Global,
    seps: &mut Vec<Value>,
    nodes: &mut Vec<Arc<Node<V>>>,
    at: usize,
    key: &Value,
) -> Result<usize, AllocError>
    requires place { Leads key.now seps.old.items at }
    requires wide { IsSoAt IsWide (map arc_value nodes.old.items) at }
    requires room { length (map arc_value nodes.old.items) < 15 }
    requires below { AreBelow seps.old.items (map arc_value nodes.old.items) }
    requires filled { AreFilled (map arc_value nodes.old.items) }
    ensures same { AreSame seps.old.items seps.new.items
        (map arc_value nodes.old.items) (map arc_value nodes.new.items) }
    ensures kept { OnErr result (seps.new.items ≡ seps.old.items) }
    ensures place { IfOk result (λ at. Leads key.now seps.new.items at) }
    ensures within { IfOk result (λ at. at < length nodes.new.items) }
    ensures room { IfOk result (λ at. IsSoAt IsNarrow (map arc_value nodes.new.items) at) }
{
    seps.reserve(1)?;
    nodes.reserve(1)?;
    let mut behind = Arc::new(alloc, empty(alloc))?;
    let parting = halve(alloc, &mut nodes[at], &mut behind, key)?;
    let place = side(at, &parting, key);
    seps.insert(at, parting)?;
    nodes.insert(at + 1, behind)?;
    Ok(place)
}

/// Moves what is behind a place in a node to another, and answers the key that parts the two.
fn halve<V: Copied>(
    alloc: Global,
    node: &mut Arc<Node<V>>,
    behind: &mut Arc<Node<V>>,
    next: &Value,
) -> Result<Value, AllocError>
    requires { IsWide (arc_value node.old) }
    ensures cut { IfOk result (λ key. AreHalves (arc_value node.old) (arc_value node.new) key (arc_value behind.new)) }
    ensures same { OnErr result (arc_value node.new ≡ arc_value node.old) }
{
    match Arc::get_mut(behind) {
        Some(half) => match Arc::get_mut(node) {
            Some(node) => {
                let (key, made) = node.cut_off(alloc, next)?;
                *half = made;
                Ok(key)
            }
            None => Err(AllocError),
        },
        None => Err(AllocError),
    }
}

/// The separators without the node at a place, where its last entry may go and it isn't the only node: they are made
/// before that entry goes, since then nothing may fail any more.
pub fn seps_left(
    alloc: Global,
    seps: &[Value],
    at: usize,
    count: usize,
    grows: bool,
) -> Result<Option<Arc<Vec<Value>>>, AllocError>
    requires { at ≤ length seps.now }
    ensures left { IfOk result (λ left. IfSome left (λ left. AreWithout at seps.now (arc_value left).items)) }
    ensures some { IfOk result (λ left. grows ≡ false → count ≤ 1 → 0 < length seps.now → is_some left ≡ true) }
{
    if grows || count > 1 || seps.is_empty() {
        return Ok(None);
    }
    Ok(Some(Arc::new(alloc, without(alloc, seps, at)?)?))
}

/// The separators without that behind the node at a place, or before it where it is the last node.
fn without(alloc: Global, seps: &[Value], at: usize) -> Result<Vec<Value>, AllocError>
    requires { 0 < length seps.now }
    ensures { IfOk result (λ left. AreWithout at seps.now left.items) }
{
    let mut left = copy_keys(alloc, seps)?;
    drop(left.remove(at.min(seps.len() - 1)));
    Ok(left)
}

/// Takes a node without entries out, where these separators are left without it.
fn take_out_empty<V: Copied>(
    seps: &mut Arc<Vec<Value>>,
    nodes: &mut Vec<Arc<Node<V>>>,
    at: usize,
    left: Arc<Vec<Value>>,
)
    requires within { at < length nodes.old.items }
    requires left { AreWithout at (arc_value seps.old).items (arc_value left).items }
    requires none { entries_at (map arc_value nodes.old.items) at ≡ [] }
    requires below { AreBelow (arc_value seps.old).items (map arc_value nodes.old.items) }
    requires filled { AreFilledBut at (map arc_value nodes.old.items) }
    ensures { AreSame (arc_value seps.old).items (arc_value seps.new).items
        (map arc_value nodes.old.items) (map arc_value nodes.new.items) }
{
    *seps = left;
    drop(nodes.remove(at));
}

/// After a change below one node: how many entries there are now, and no node without entries beside another. Where the
/// last entry of the node has gone, `left` are the separators without it.
pub fn settle<V: Copied>(
    count: &mut usize,
    seps: &mut Arc<Vec<Value>>,
    nodes: &mut Vec<Arc<Node<V>>>,
    at: usize,
    before: usize,
    left: Option<Arc<Vec<Value>>>,
)
    requires within { at < length nodes.old.items }
    requires below { AreBelow (arc_value seps.old).items (map arc_value nodes.old.items) }
    requires filled { AreFilledBut at (map arc_value nodes.old.items) }
    requires left { IfSome left (λ left. AreWithout at (arc_value seps.old).items (arc_value left).items) }
    requires some { entries_at (map arc_value nodes.old.items) at ≡ [] → 0 < length (arc_value seps.old).items
        → is_some left ≡ true }
    requires count { count.old + length (entries_at (map arc_value nodes.old.items) at)
        ≡ length (entries_of (map arc_value nodes.old.items)) + before }
    requires short { length (entries_of (map arc_value nodes.old.items)) < 2 ^ 64 }
    ensures same { AreSame (arc_value seps.old).items (arc_value seps.new).items
        (map arc_value nodes.old.items) (map arc_value nodes.new.items) }
    ensures count { count.new ≡ length (entries_of (map arc_value nodes.new.items)) }
{
    let after = nodes[at].count();
    *count = *count - before + after;
    if after == 0 {
        if let Some(left) = left {
            take_out_empty(seps, nodes, at, left);
        }
    }
}
