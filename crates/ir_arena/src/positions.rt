//! Where values stand in a list, by their hashes.

ghost use Rattle.std.specs.Prelude.{◌≡◌, ◌<◌, ◌++◌, ◌∷◌, [], ℕ, Some, OnOk, OnErr, length, nat_eq, slice_get};
ghost use Rattle.std.specs.HashMap.{get};
ghost use Rattle.ir_arena.specs.Limits.{max_len};
ghost use Rattle.ir_arena.specs.LastPlaces.{AreLinked, IsLastBefore};

use std::alloc::{AllocError, Global};
use std::collections::HashMap;
use std::marker::Model;

/// The hashes of a list of values, so that those with one hash are found from the last to the first. Contracts see the
/// list of the hashes.
#[derive(Drop)]
pub struct Positions {
    hashes: Vec<u64>,
    // by place, the last one before it with the same hash
    before: Vec<Option<u32>>,
    // by hash
    last: HashMap<u64, u32>,
    ghost linked: { AreLinked hashes.items before.items (get nat_eq last) },
}

impl Model for Positions {
    ghost use Rattle.std.specs.Prelude.{ℕ, List};

    ghost Value = { List ℕ };

    ghost view = { λ p. p.hashes.items };
}

impl Positions {
    /// Of an empty list.
    pub fn new(alloc: Global) -> Positions
        ensures { result ≡ [] }
    {
        Positions {
            hashes: Vec::new(alloc),
            before: Vec::new(alloc),
            last: HashMap::new(alloc),
        }
    }

    /// The last place of a hash.
    pub fn last(&self, hash: u64) -> Option<u32>
        ensures { IsLastBefore self.now (length self.now) hash result }
    {
        self.last.get(&hash).copied()
    }

    /// The last place before this one with the same hash.
    pub fn before(&self, place: u32) -> Option<u32>
        requires { place < length self.now }
        ensures { (hash : ℕ) → slice_get self.now place ≡ Some hash → IsLastBefore self.now place hash result }
    {
        self.before[place as usize]
    }

    /// Adds the hash of a further value. An Err is out of memory, and leaves what was there.
    pub fn push(&mut self, hash: u64) -> Result<(), AllocError>
        requires { length self.old < max_len }
        ensures ok { OnOk result (self.new ≡ self.old ++ hash ∷ []) }
        ensures err { OnErr result (self.new ≡ self.old) }
    {
        let count = self.hashes.len();
        let before = self.last(hash);
        self.hashes.push(hash)?;
        if let Err(refused) = self.before.push(before) {
            self.hashes.truncate(count);
            return Err(AllocError::from(refused));
        }
        if let Err(refused) = self.last.insert(hash, count as u32) {
            self.hashes.truncate(count);
            self.before.truncate(count);
            return Err(AllocError::from(refused));
        }
        Ok(())
    }
}
