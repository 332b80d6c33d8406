//! Arenas in which no two values are equal.

ghost use Rattle.std.specs.Prelude.{◌≡◌, ◌↔◌, ◌<◌, ◌≤◌, ◌++◌, ◌∷◌, [], true, Contains, IsTrue, IfOk, IfSome, IfNone, OnOk, OnErr, Some, length, slice_get};
ghost use Rattle.ir_arena.specs.Limits.{max_len};
ghost use Rattle.ir_types.specs.Unique.{AreDistinct, hash_of};

use crate::types::Type;
use ir_arena::arena::MAX_LEN;
use ir_arena::handle::{Handle, Tagged};
use ir_arena::positions::Positions;
use ir_arena::span::Span;
use std::alloc::{AllocError, Global};
use std::hash::{FoldHasher, Hash, Hasher};
use std::marker::Model;
use std::ops::Index;

/// A type whose `==` is true of identical values only.
pub trait Identical: Eq {
    ghost identical: { (a b : Self) → Self.PartialEq.eq a b ≡ true → a ≡ b };
}

impl Identical for Type {
    ghost use Rattle.ir_types.specs.EqualTypes.{type_same};

    ghost identical = { type_same };
}

/// The hash of a value.
#[tactic(auto, unfolding(crate::specs::Unique::hash_of))]
fn hash_of<T: Hash>(value: &T) -> u64
    ensures { result ≡ hash_of T.hash_input value.now }
{
    let mut hasher = FoldHasher::default();
    value.hash(&mut hasher);
    hasher.finish()
}

/// A list of at most [`MAX_LEN`](ir_arena::arena::MAX_LEN) values of which no two are equal.
///
/// Each has the span of its first insertion. Contracts see the list of the values.
#[derive(Drop)]
pub struct UniqueArena<T: Tagged + Eq + Hash> {
    values: Vec<T>,
    spans: Vec<Span>,
    positions: Positions,
}

impl<T: Tagged + Eq + Hash> Model for UniqueArena<T> {
    ghost use Rattle.std.specs.Prelude.{List, length};
    ghost use Rattle.ir_types.specs.Unique.{AreKept};

    ghost Value = { List T };

    ghost view = { λ a. a.values.items };

    ghost invariant = { λ a. AreKept T.hash_input a.values.items (length a.spans.items) a.positions };
}

impl<T: Tagged + Eq + Hash + Drop> UniqueArena<T> {
    /// An empty arena, which keeps the allocator.
    pub fn new(alloc: Global) -> Self
        ensures { result ≡ [] }
    {
        UniqueArena {
            values: Vec::new(alloc),
            spans: Vec::new(alloc),
            positions: Positions::new(alloc),
        }
    }
}

// Reading needs no `Drop`: with it each crate that reads an arena would have the drop of its values to prove.
impl<T: Tagged + Eq + Hash> UniqueArena<T> {
    /// How many values there are; a handle of the arena has a lower index.
    pub fn len(&self) -> usize
        ensures len { result ≡ length self.now }
        ensures small { result ≤ max_len }
    {
        self.values.len()
    }

    /// Whether there is no value, so that no handle is in range.
    pub fn is_empty(&self) -> bool
        ensures { IsTrue result ↔ (self.now ≡ []) }
    {
        self.values.len() == 0
    }

    /// Whether no further value can be added.
    pub fn is_full(&self) -> bool
        ensures { IsTrue result ↔ (max_len ≤ length self.now) }
    {
        self.len() >= MAX_LEN
    }

    /// The span of the value's first insertion.
    pub fn get_span(&self, handle: Handle<T::Tag>) -> Span
        requires { handle < length self.now }
    {
        self.spans[handle.index()]
    }
}

impl<T: Tagged + Identical + Hash> UniqueArena<T> {
    /// The place of an equal value, whose hash is given.
    fn find(&self, hash: u64, value: &T) -> Option<u32>
        requires { hash ≡ hash_of T.hash_input value.now }
        ensures found { IfSome result (λ place. slice_get self.now place ≡ Some value.now) }
        ensures absent { IfNone result (¬ Contains self.now value.now) }
    {
        let mut next = self.positions.last(hash);
        while let Some(place) = next {
            if self.values[place as usize] == *value {
                return Some(place);
            }
            next = self.positions.before(place);
        }
        None
    }

    /// The values in the order of their first insertion, indexed by their handles.
    pub fn as_slice(&self) -> &[T]
        ensures values { result.now ≡ self.now }
        ensures distinct { AreDistinct self.now }
    {
        self.values.as_slice()
    }
}

impl<T: Tagged + Identical + Hash + Drop> UniqueArena<T> {
    /// Returns the handle of the equal value. If there is none, adds this one at the end. The arena must not be full.
    ///
    /// The span of a value that is already there stays. An Err is out of memory, and leaves the arena as it was.
    pub fn insert(&mut self, value: T, span: Span) -> Result<Handle<T::Tag>, AllocError>
        requires { length self.old < max_len }
        ensures place { IfOk result (λ h. slice_get self.new h ≡ Some value) }
        ensures found { Contains self.old value → OnOk result (self.new ≡ self.old) }
        ensures added { ¬ Contains self.old value → OnOk result (self.new ≡ self.old ++ value ∷ []) }
        ensures err { OnErr result (self.new ≡ self.old) }
    {
        let hash = hash_of(&value);
        if let Some(place) = self.find(hash, &value) {
            return Ok(Handle::new(place));
        }
        let count = self.values.len();
        self.values.push(value)?;
        if let Err(refused) = self.spans.push(span) {
            self.values.truncate(count);
            return Err(AllocError::from(refused));
        }
        if let Err(refused) = self.positions.push(hash) {
            self.values.truncate(count);
            self.spans.truncate(count);
            return Err(refused);
        }
        Ok(Handle::new(count as u32))
    }
}

impl UniqueArena<Type> {
    /// Clones the arena: equal types with the same spans. An Err is out of memory.
    pub fn clone(&self, alloc: Global) -> Result<Self, AllocError>
        ensures { IfOk result (λ made. made ≡ self.now) }
    {
        let mut made = UniqueArena::new(alloc);
        let types = self.as_slice();
        for index in 0..self.len() {
            let span = self.get_span(Handle::new(index as u32));
            made.insert(types[index].clone(alloc)?, span)?;
        }
        Ok(made)
    }
}

impl<T: Tagged + Eq + Hash> Index<Handle<T::Tag>> for UniqueArena<T> {
    type Output = T;

    ghost can_index = { λ a h. h < length a };

    ghost index_gives = { λ a h value. slice_get a h ≡ Some value };

    fn index(&self, handle: Handle<T::Tag>) -> &T {
        &self.values[handle.index()]
    }
}
