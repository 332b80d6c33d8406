//! Handles: typed indices into arenas.

ghost use Rattle.std.specs.Prelude.{◌≡◌, ◌^◌, ◌<◌, ◌++◌, Some, codes, decimal};

use std::fmt;
use std::marker::{Model, PhantomData};

/// The index of a value in an arena whose values have the tag `T`: 32 bits, counted from 0. Contracts see the index.
#[derive_where(Clone, Copy, PartialEq, Eq, PartialOrd, Ord, Hash)]
pub struct Handle<T> {
    index: u32,
    tag: PhantomData<T>,
}

impl<T> Model for Handle<T> {
    ghost use Rattle.std.specs.Prelude.{ℕ};

    ghost Value = { ℕ };

    ghost view = { λ h. h.index };

    ghost inverse = { λ n. record { index = n; tag = record {} } };
}

/// Ties a type that an arena stores to the tag of its handles.
pub trait Tagged {
    type Tag;
}

impl<T> Handle<T> {
    /// The handle with this index, which need not be in range of any arena.
    pub fn new(index: u32) -> Self
        ensures { result ≡ index }
    {
        Handle {
            index,
            tag: PhantomData,
        }
    }

    /// The index in the arena, counted from 0.
    pub fn index(self) -> usize
        ensures value { result ≡ self }
        ensures bound { result < 2 ^ 32 }
    {
        self.index as usize
    }
}

/// Writes the index in brackets, as `[6]`.
impl<T> fmt::Debug for Handle<T> {
    ghost debug_output = { λ h. Some (codes "[" ++ decimal h ++ codes "]") };

    fn fmt<W: fmt::Write>(&self, f: &mut fmt::Formatter<W>) -> fmt::Result {
        let index = self.index;
        write!(f, "[{index}]")
    }
}
