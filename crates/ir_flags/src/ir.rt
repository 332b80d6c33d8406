//! Sets of named bits in the IR. `bitflags` gives the operations; contracts see the bits as field `0`.

ghost use Rattle.std.specs.Prelude.{◌≡◌, ⊤, [], ◌∷◌, codes};

use crate::set_text::write_set;
use bitflags::{Flag, Flags};
use std::fmt;

/// What may be done with a storage buffer or a storage image: bit 0 load, bit 1 store, bit 2 atomic operations.
#[derive(Clone, Copy, PartialEq, Eq, Hash)]
pub struct StorageAccess(pub u8);

impl StorageAccess {
    pub const LOAD: StorageAccess = StorageAccess(0x1);

    pub const STORE: StorageAccess = StorageAccess(0x2);

    pub const ATOMIC: StorageAccess = StorageAccess(0x4);

    /// The bits with their names.
    pub const FLAGS: &'static [Flag<StorageAccess>] =
        named_bits!(StorageAccess: LOAD, STORE, ATOMIC);
}

impl fmt::Debug for StorageAccess {
    fn fmt<W: fmt::Write>(&self, f: &mut fmt::Formatter<W>) -> fmt::Result {
        write_set("StorageAccess", self, f)
    }
}

impl Flags for StorageAccess {
    ghost use Rattle.ir_flags.specs.Bits as bit;

    type Bits = u8;

    ghost exact = { ⊤ };

    ghost table = { (codes "LOAD", bit.LOAD.0) ∷
        (codes "STORE", bit.STORE.0) ∷
        (codes "ATOMIC", bit.ATOMIC.0) ∷ [] };

    ghost set_of = { λ p. p.0 };

    fn flags<'a>() -> &'a [Flag<StorageAccess>] {
        StorageAccess::FLAGS
    }

    fn bits(&self) -> u8 {
        self.0
    }

    fn from_bits_retain(bits: u8) -> StorageAccess {
        StorageAccess(bits)
    }
}

impl StorageAccess {
    ghost use Rattle.ir_flags.specs.Bits.{contains};

    /// Whether the set has all of `some`.
    pub fn contains(self, some: StorageAccess) -> bool
        ensures { result ≡ contains self.0 some.0 }
    {
        Flags::contains(&self, some)
    }
}

/// Which memory a barrier orders: bit 0 storage, bit 1 workgroup, bit 2 subgroup, bit 3 textures.
#[derive(Clone, Copy, PartialEq, Eq, Hash)]
pub struct Barrier(pub u8);

impl Barrier {
    pub const STORAGE: Barrier = Barrier(0x1);

    pub const WORK_GROUP: Barrier = Barrier(0x2);

    pub const SUB_GROUP: Barrier = Barrier(0x4);

    pub const TEXTURE: Barrier = Barrier(0x8);

    /// The bits with their names.
    pub const FLAGS: &'static [Flag<Barrier>] =
        named_bits!(Barrier: STORAGE, WORK_GROUP, SUB_GROUP, TEXTURE);
}

impl fmt::Debug for Barrier {
    fn fmt<W: fmt::Write>(&self, f: &mut fmt::Formatter<W>) -> fmt::Result {
        write_set("Barrier", self, f)
    }
}

impl Flags for Barrier {
    ghost use Rattle.ir_flags.specs.Bits as bit;

    type Bits = u8;

    ghost exact = { ⊤ };

    ghost table = { (codes "STORAGE", bit.STORAGE.0) ∷
        (codes "WORK_GROUP", bit.WORK_GROUP.0) ∷
        (codes "SUB_GROUP", bit.SUB_GROUP.0) ∷
        (codes "TEXTURE", bit.TEXTURE.0) ∷ [] };

    ghost set_of = { λ p. p.0 };

    fn flags<'a>() -> &'a [Flag<Barrier>] {
        Barrier::FLAGS
    }

    fn bits(&self) -> u8 {
        self.0
    }

    fn from_bits_retain(bits: u8) -> Barrier {
        Barrier(bits)
    }
}

impl Barrier {
    ghost use Rattle.ir_flags.specs.Bits.{contains};

    /// Whether the set has all of `some`.
    pub fn contains(self, some: Barrier) -> bool
        ensures { result ≡ contains self.0 some.0 }
    {
        Flags::contains(&self, some)
    }
}

/// How a global is decorated in SPIR-V's terms: bit 0 `Coherent`, bit 1 `Volatile`.
#[derive(Clone, Copy, PartialEq, Eq, Hash)]
pub struct MemoryDecorations(pub u8);

impl MemoryDecorations {
    pub const COHERENT: MemoryDecorations = MemoryDecorations(0x1);

    pub const VOLATILE: MemoryDecorations = MemoryDecorations(0x2);

    /// The bits with their names.
    pub const FLAGS: &'static [Flag<MemoryDecorations>] =
        named_bits!(MemoryDecorations: COHERENT, VOLATILE);
}

impl fmt::Debug for MemoryDecorations {
    fn fmt<W: fmt::Write>(&self, f: &mut fmt::Formatter<W>) -> fmt::Result {
        write_set("MemoryDecorations", self, f)
    }
}

impl Flags for MemoryDecorations {
    ghost use Rattle.ir_flags.specs.Bits as bit;

    type Bits = u8;

    ghost exact = { ⊤ };

    ghost table = { (codes "COHERENT", bit.COHERENT.0) ∷
        (codes "VOLATILE", bit.VOLATILE.0) ∷ [] };

    ghost set_of = { λ p. p.0 };

    fn flags<'a>() -> &'a [Flag<MemoryDecorations>] {
        MemoryDecorations::FLAGS
    }

    fn bits(&self) -> u8 {
        self.0
    }

    fn from_bits_retain(bits: u8) -> MemoryDecorations {
        MemoryDecorations(bits)
    }
}

impl MemoryDecorations {
    /// Both decorations.
    pub const ALL: MemoryDecorations = MemoryDecorations(0x3);

    ghost use Rattle.ir_flags.specs.Bits.{contains};

    /// Whether the set has all of `some`.
    pub fn contains(self, some: MemoryDecorations) -> bool
        ensures { result ≡ contains self.0 some.0 }
    {
        Flags::contains(&self, some)
    }
}
