//! Values that can be cloned with an allocator, so that lists and arenas of them can be cloned too.

ghost use Rattle.std.specs.Prelude.{◌≡◌, IfOk};

use std::alloc::{AllocError, Global};

/// A type whose values can be cloned with an allocator.
///
/// Items of lists and arenas implement it beside their inherent `clone`, which a type parameter can't name.
pub trait Duplicate: Drop {
    /// Clones the value. An Err is out of memory.
    fn duplicate(&self, alloc: Global) -> Result<Self, AllocError>
        ensures { IfOk result (λ made. made ≡ self.now) };
}

/// Clones the values, in the same order. An Err is out of memory.
pub fn duplicates<T: Duplicate>(alloc: Global, items: &[T]) -> Result<Vec<T>, AllocError>
    ensures { IfOk result (λ made. made.items ≡ items.now) }
{
    let mut made = Vec::with_capacity(alloc, items.len())?;
    for item in items {
        made.push(item.duplicate(alloc)?)?;
    }
    Ok(made)
}
