//! Arenas: lists of values that are read by handles.

ghost use Rattle.std.specs.Prelude.{◌≡◌, ◌↔◌, ◌<◌, ◌≤◌, ◌++◌, ◌∷◌, [], IsTrue, IfOk, OnOk, OnErr, Some, length, slice_get};
ghost use Rattle.ir_arena.specs.Limits.{max_len};

use crate::duplicate::{Duplicate, duplicates};
use crate::handle::{Handle, Tagged};
use crate::span::Span;
use std::alloc::{AllocError, Global};
use std::marker::Model;
use std::ops::Index;

/// The most values that an arena can hold: as many as 32 bits can count. So each value has a handle.
pub const MAX_LEN: usize = 4294967295;

/// A list of at most [`MAX_LEN`] values, each with its span. A handle is the index of a value.
///
/// Contracts see the list of the values, and no spans.
#[derive(Drop)]
pub struct Arena<T: Tagged> {
    values: Vec<T>,
    spans: Vec<Span>,
}

impl<T: Tagged> Model for Arena<T> {
    ghost use Rattle.std.specs.Prelude.{◌≡◌, ◌≤◌, List, length};
    ghost use Rattle.ir_arena.specs.Limits.{max_len};

    ghost Value = { List T };

    ghost view = { λ a. a.values.items };

    ghost invariant = { (λ a. (length a.values.items ≡ length a.spans.items) × (length a.values.items ≤ max_len)) };
}

impl<T: Tagged + Drop> Arena<T> {
    /// An empty arena, which keeps the allocator.
    pub fn new(alloc: Global) -> Self
        ensures { result ≡ [] }
    {
        Arena {
            values: Vec::new(alloc),
            spans: Vec::new(alloc),
        }
    }

    /// Adds a value at the end, and returns its handle. The arena must not be full.
    ///
    /// An Err is out of memory. It leaves the arena as it was.
    pub fn append(&mut self, value: T, span: Span) -> Result<Handle<T::Tag>, AllocError>
        requires { length self.old < max_len }
        ensures appended { OnOk result (self.new ≡ self.old ++ value ∷ []) }
        ensures place { IfOk result (λ h. h ≡ length self.old) }
        ensures err { OnErr result (self.new ≡ self.old) }
    {
        let index = self.values.len() as u32;
        self.spans.push(span)?;
        if let Err(refused) = self.values.push(value) {
            let _ = self.spans.pop();
            return Err(AllocError::from(refused));
        }
        Ok(Handle::new(index))
    }
}

// Reading needs no `Drop`: with it each crate that reads an arena would have the drop of its values to prove.
impl<T: Tagged> Arena<T> {
    /// How many values there are; a handle of the arena has a lower index.
    pub fn len(&self) -> usize
        ensures len { result ≡ length self.now }
        ensures small { result ≤ max_len }
    {
        self.values.len()
    }

    /// Whether there is no value, so that no handle is in range.
    pub fn is_empty(&self) -> bool
        ensures { IsTrue result ↔ (self.now ≡ []) }
    {
        self.values.is_empty()
    }

    /// Whether no further value can be added.
    pub fn is_full(&self) -> bool
        ensures { IsTrue result ↔ (max_len ≤ length self.now) }
    {
        self.len() >= MAX_LEN
    }

    /// The span that the value was given.
    pub fn get_span(&self, handle: Handle<T::Tag>) -> Span
        requires { handle < length self.now }
    {
        self.spans[handle.index()]
    }

    /// The values, indexed by their handles.
    pub fn as_slice(&self) -> &[T]
        ensures { result.now ≡ self.now }
    {
        self.values.as_slice()
    }
}

impl<T: Tagged + Duplicate> Arena<T> {
    /// Clones the arena: equal values with the same spans. An Err is out of memory.
    pub fn clone(&self, alloc: Global) -> Result<Self, AllocError>
        ensures { IfOk result (λ made. made ≡ self.now) }
    {
        Ok(Arena {
            values: duplicates(alloc, self.values.as_slice())?,
            spans: self.spans.as_slice().to_vec(alloc)?,
        })
    }
}

impl<T: Tagged> Index<Handle<T::Tag>> for Arena<T> {
    type Output = T;

    ghost can_index = { λ a h. h < length a };

    ghost index_gives = { λ a h value. slice_get a h ≡ Some value };

    fn index(&self, handle: Handle<T::Tag>) -> &T {
        &self.values[handle.index()]
    }
}
