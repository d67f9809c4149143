//! Copies of what a node holds, which share all that can be shared.

ghost use Rattle.std.specs.Prelude.{◌≡◌, ◌≤◌, drop, take, length, IfOk, map};
ghost use Rattle.std.specs.Arc.{arc_value};

use crate::nodes::MOST;
use std::alloc::{AllocError, Global};
use std::sync::Arc;
use value::{Copied, Value};

/// The same entries once more.
pub fn copy_page<V: Copied>(
    alloc: Global,
    page: &[(Value, V)],
) -> Result<Vec<(Value, V)>, AllocError>
    ensures { IfOk result (λ copy. copy.items ≡ page.now) }
{
    // (a full page is cut before an entry comes to it)
    let mut made = Vec::with_capacity(alloc, page.len().saturating_add(1).min(MOST))?;
    for entry in page {
        let key = entry.0.copy()?;
        let value = entry.1.copied()?;
        made.push((key, value))?;
    }
    Ok(made)
}

/// The same keys once more.
pub fn copy_keys(alloc: Global, keys: &[Value]) -> Result<Vec<Value>, AllocError>
    ensures { IfOk result (λ copy. copy.items ≡ keys.now) }
{
    let mut made = Vec::with_capacity(alloc, keys.len().saturating_add(1))?;
    for key in keys {
        made.push(key.copy()?)?;
    }
    Ok(made)
}

/// The same items once more, shared.
pub fn share<T: Drop>(alloc: Global, items: &[Arc<T>]) -> Result<Vec<Arc<T>>, AllocError>
    ensures { IfOk result (λ copy. map arc_value copy.items ≡ map arc_value items.now) }
{
    let mut made = Vec::with_capacity(alloc, items.len().saturating_add(1))?;
    for item in items {
        made.push(Arc::try_clone(item)?)?;
    }
    Ok(made)
}

/// The keys before a place once more.
pub fn keys_before(alloc: Global, keys: &[Value], end: usize) -> Result<Vec<Value>, AllocError>
    requires { end ≤ length keys.now }
    ensures { IfOk result (λ copy. copy.items ≡ take end keys.now) }
{
    copy_keys(alloc, &keys[..end])
}

/// The keys from a place on once more.
pub fn keys_from(alloc: Global, keys: &[Value], from: usize) -> Result<Vec<Value>, AllocError>
    requires { from ≤ length keys.now }
    ensures { IfOk result (λ copy. copy.items ≡ drop from keys.now) }
{
    copy_keys(alloc, &keys[from..])
}

/// The items from a place on once more, shared.
pub fn share_from<T: Drop>(
    alloc: Global,
    items: &[Arc<T>],
    from: usize,
) -> Result<Vec<Arc<T>>, AllocError>
    requires { from ≤ length items.now }
    ensures { IfOk result (λ copy. map arc_value copy.items ≡ drop from (map arc_value items.now)) }
{
    share(alloc, &items[from..])
}
