//! Where a key, or the entry of a number, stands among entries or nodes that stand beside each other.

ghost use Rattle.std.specs.Prelude.{◌≡◌, ◌<◌, ◌≤◌, ◌+◌, ◌^◌, ◌⊎◌, ◌++◌, suc, List, None, Some, option_map, map, drop, length, slice_get, IfOk, IfErr};
ghost use Rattle.std.specs.List.{insert};
ghost use Rattle.std.specs.Option.{option_copied};
ghost use Rattle.std.specs.Arc.{arc_value};
ghost use Rattle.pages.specs.Reach.{key_of, AreInOrder};
ghost use Rattle.pages.specs.Levels.{entries_of, entries_at};
ghost use Rattle.pages.specs.Parts.{AreRising, Leads};
ghost use Rattle.pages.specs.Taken.{IsTakenFrom};
ghost use Rattle.value.specs.Ordered.{at as item_at};
ghost use Rattle.value.specs.ValueOrder.{value_cmp};
ghost use Rattle.value.specs.declared.values.Value.{Value as values};

use crate::nodes::Node;
use std::cmp::Ordering;
use std::sync::Arc;
use value::{Value, order};

/// Where an entry stands at a key of a page; where there is none, the place where it would stand.
pub fn seek<V>(page: &[(Value, V)], key: &Value) -> Result<usize, usize>
    requires { AreInOrder page.now }
    ensures within { IfOk result (λ place. place < length page.now) }
    ensures found { IfOk result (λ place.
        item_at value_cmp key_of key.now page.now ≡ slice_get page.now place) }
    ensures put { IfOk result (λ place. IsTakenFrom key.now place (place + 1) page.now) }
    ensures same { IfOk result (λ place. option_map key_of (slice_get page.now place) ≡ Some key.now) }
    ensures none { IfErr result (λ _. item_at value_cmp key_of key.now page.now ≡ None) }
    ensures beside { IfErr result (λ place. IsTakenFrom key.now place place page.now) }
{
    let mut low = 0;
    let mut high = page.len();
    while low < high {
        let middle = low + (high - low) / 2;
        match order(key, &page[middle].0) {
            Ordering::Less => high = middle,
            Ordering::Equal => return Ok(middle),
            Ordering::Greater => low = middle + 1,
        }
    }
    Err(low)
}

/// The entry at a key of a page.
pub fn find<'a, V>(page: &'a [(Value, V)], key: &Value) -> Option<&'a (Value, V)>
    requires { AreInOrder page.now }
    ensures { option_copied result ≡ item_at value_cmp key_of key.now page.now }
{
    match seek(page, key) {
        Ok(place) => Some(&page[place]),
        Err(_) => None,
    }
}

/// The place of the node that the key belongs to, among nodes that are parted so.
pub fn route(seps: &[Value], key: &Value) -> usize
    requires { AreRising seps.now }
    ensures { Leads key.now seps.now result }
{
    let mut low = 0;
    let mut high = seps.len();
    while low < high {
        let middle = low + (high - low) / 2;
        if order(key, &seps[middle]).is_lt() {
            high = middle;
        } else {
            low = middle + 1;
        }
    }
    low
}

/// The place that the key belongs to once the node at its place is cut there.
pub fn side(at: usize, parting: &Value, key: &Value) -> usize
    requires { at < 2 ^ 63 }
    ensures led { (seps : List values) → Leads key.now seps at → Leads key.now (insert seps at parting.now) result }
    ensures either { (result ≡ at) ⊎ (result ≡ suc at) }
{
    if order(key, parting).is_lt() {
        at
    } else {
        at + 1
    }
}

/// Where a page is cut, in which several entries stand: in the middle, or before its last entry where the next key is
/// above that, so that keys which come upwards leave full pages.
pub fn page_half<V>(page: &[(Value, V)], next: &Value) -> usize
    requires { 1 < length page.now }
    ensures some { 0 < result }
    ensures within { result < length page.now }
{
    let last = page.len() - 1;
    if order(next, &page[last].0).is_gt() {
        last
    } else {
        page.len() / 2
    }
}

/// The place of the separator at which nodes are parted in two: in the middle, or the last where the next key isn't
/// below that.
pub fn nodes_half(seps: &[Value], next: &Value) -> usize
    requires { 0 < length seps.now }
    ensures { result < length seps.now }
{
    let last = seps.len() - 1;
    if order(next, &seps[last]).is_lt() {
        last / 2
    } else {
        last
    }
}

/// The place of the node below which the entry of a number stands, and its number there.
pub fn node_at<V>(nodes: &[Arc<Node<V>>], number: usize) -> (usize, usize)
    requires { number < length (entries_of (map arc_value nodes.now)) }
    ensures within { result.0 < length nodes.now }
    ensures there { result.1 < length (entries_at (map arc_value nodes.now) result.0) }
    ensures entries { drop number (entries_of (map arc_value nodes.now))
        ≡ drop result.1 (entries_at (map arc_value nodes.now) result.0)
        ++ entries_of (drop (result.0 + 1) (map arc_value nodes.now)) }
{
    let mut rest = number;
    for place in 0..nodes.len() {
        let count = nodes[place].count();
        if rest < count {
            return (place, rest);
        }
        rest -= count;
    }
    unreachable!()
}
