//! Roots in order, of which every version stays whole.

ghost use Rattle.std.specs.Prelude.{◌≡◌, [], None, Some, IfOk, if◌then◌else◌, slice_get};
ghost use Rattle.std.specs.Option.{option_copied};
ghost use Rattle.pages.specs.Reach.{key_of, entry_of};
ghost use Rattle.value.specs.Ordered.{put};
ghost use Rattle.value.specs.ValueOrder.{value_cmp};
ghost use Rattle.value.specs.declared.values.Root.TheVariants.{All, Of};
ghost use Rattle.roots.specs.Bad.{put_root};
ghost use Rattle.roots.specs.Listed.{AreUnder};

use pages::Pages;
use std::alloc::{AllocError, Global};
use std::marker::Model;
use value::{Root, Value};

/// Bad roots in order, each once. A copy shares all of it, and a change copies the path that
/// is still shared.
#[derive(Debug, Drop)]
pub struct BadRoots {
    /// The whole, if it is one of them.
    whole: Option<Root>,
    /// The others, each under its value.
    values: Pages<Root>,
}

impl Model for BadRoots {
    ghost use Rattle.std.specs.Prelude.{List};
    ghost use Rattle.value.specs.declared.values.Root.{Root as roots};
    ghost use Rattle.roots.specs.Listed.{roots_in, AreInPlace};

    ghost Value = { List roots };

    ghost view = { λ bad. roots_in bad.whole bad.values };

    ghost invariant = { λ bad. AreInPlace bad.whole bad.values };
}

impl BadRoots {
    /// No roots. It takes no memory.
    pub fn new(alloc: Global) -> BadRoots
        ensures { result ≡ [] }
    {
        BadRoots {
            whole: None,
            values: Pages::new(alloc),
        }
    }

    /// The least of the roots, if there is one. It takes no memory.
    pub fn first(&self) -> Option<&Root>
        ensures { option_copied result ≡ slice_get self.now 0 }
    {
        match &self.whole {
            Some(root) => Some(root),
            None => match self.values.first() {
                Some(entry) => Some(&entry.1),
                None => None,
            },
        }
    }

    /// The roots with this one in or out. Copies of these stay as they are.
    pub fn with(self, root: &Root, is_in: bool) -> Result<BadRoots, AllocError>
        ensures { IfOk result (λ made. made ≡ put_root root.now is_in self) }
    {
        match root {
            Root::All => self.with_whole(is_in),
            Root::Of(value) => self.with_value(value, is_in),
        }
    }

    /// The roots with the whole in or out.
    fn with_whole(self, is_in: bool) -> Result<BadRoots, AllocError>
        ensures { IfOk result (λ made. made ≡ put_root All is_in self) }
    {
        Ok(BadRoots {
            whole: the_whole(is_in),
            values: self.values,
        })
    }

    /// The roots with the root of a value in or out.
    fn with_value(self, value: &Value, is_in: bool) -> Result<BadRoots, AllocError>
        ensures { IfOk result (λ made. made ≡ put_root (Of value.now) is_in self) }
    {
        Ok(BadRoots {
            whole: self.whole,
            values: with_value(self.values, value, is_in)?,
        })
    }

    /// Roots equal to these, which share all with them.
    pub fn copy(&self) -> Result<BadRoots, AllocError>
        ensures { IfOk result (λ copy. copy ≡ self.now) }
    {
        Ok(BadRoots {
            whole: copy_of(&self.whole)?,
            values: self.values.copy()?,
        })
    }
}

/// The whole, if it is in.
fn the_whole(is_in: bool) -> Option<Root>
    ensures { result ≡ (if is_in then Some All else None) }
{
    if is_in { Some(Root::All) } else { None }
}

/// A root equal to this one, if there is one.
fn copy_of(root: &Option<Root>) -> Result<Option<Root>, AllocError>
    ensures { IfOk result (λ copy. copy ≡ root.now) }
{
    match root {
        Some(root) => Ok(Some(root.copy()?)),
        None => Ok(None),
    }
}

/// What is held with the root of a value in or out; where it is so already, nothing changes.
fn with_value(values: Pages<Root>, value: &Value, is_in: bool) -> Result<Pages<Root>, AllocError>
    requires { AreUnder values }
    ensures { IfOk result (λ made. made
        ≡ put value_cmp key_of value.now (entry_of value.now
        (if is_in then Some (Of value.now) else None)) values) }
{
    if values.get(value).is_some() == is_in {
        return Ok(values);
    }
    let root = root_of(value, is_in)?;
    let mut values = values;
    values.put(value, root)?;
    Ok(values)
}

/// The root of a value, if it is in.
fn root_of(value: &Value, is_in: bool) -> Result<Option<Root>, AllocError>
    ensures { IfOk result (λ root. root ≡ (if is_in then Some (Of value.now) else None)) }
{
    if is_in {
        Ok(Some(Root::Of(value.copy()?)))
    } else {
        Ok(None)
    }
}
