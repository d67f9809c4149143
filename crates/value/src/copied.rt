//! What can be copied, where there is memory.

ghost use Rattle.std.specs.Prelude.{◌≡◌, IfOk};

use crate::values::{Root, Value};
use std::alloc::AllocError;

/// What can be copied by the layers that keep it, whatever it is. A copy is best one that shares.
pub trait Copied: Drop {
    /// One equal to this.
    fn copied(&self) -> Result<Self, AllocError>
        ensures { IfOk result (λ copy. copy ≡ self.now) };
}

impl Copied for () {
    fn copied(&self) -> Result<(), AllocError> {
        Ok(())
    }
}

impl<T: Copied> Copied for Option<T> {
    fn copied(&self) -> Result<Option<T>, AllocError> {
        match self {
            Some(item) => Ok(Some(item.copied()?)),
            None => Ok(None),
        }
    }
}

impl Copied for u64 {
    fn copied(&self) -> Result<u64, AllocError> {
        Ok(*self)
    }
}

impl Copied for i64 {
    fn copied(&self) -> Result<i64, AllocError> {
        Ok(*self)
    }
}

impl Copied for Value {
    fn copied(&self) -> Result<Value, AllocError> {
        self.copy()
    }
}

impl Copied for Root {
    fn copied(&self) -> Result<Root, AllocError> {
        self.copy()
    }
}
