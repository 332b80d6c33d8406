//! Sets of named bits of the validator. `bitflags` gives the operations; contracts see the bits as field `0`.

ghost use Rattle.std.specs.Prelude.{◌≡◌, ⊤, [], ◌∷◌, codes};

use crate::set_text::write_set;
use bitflags::{Flag, Flags};
use std::fmt;

/// Which checks run. Bit k is the k-th name, counted from 0.
#[derive(Clone, Copy, PartialEq, Eq, Hash)]
pub struct ValidationFlags(pub u8);

impl ValidationFlags {
    pub const EXPRESSIONS: ValidationFlags = ValidationFlags(0x1);

    pub const BLOCKS: ValidationFlags = ValidationFlags(0x2);

    pub const STRUCT_LAYOUTS: ValidationFlags = ValidationFlags(0x4);

    pub const BINDINGS: ValidationFlags = ValidationFlags(0x8);

    /// The bits with their names.
    pub const FLAGS: &'static [Flag<ValidationFlags>] =
        named_bits!(ValidationFlags: EXPRESSIONS, BLOCKS, STRUCT_LAYOUTS, BINDINGS);
}

impl fmt::Debug for ValidationFlags {
    fn fmt<W: fmt::Write>(&self, f: &mut fmt::Formatter<W>) -> fmt::Result {
        write_set("ValidationFlags", self, f)
    }
}

impl Flags for ValidationFlags {
    ghost use Rattle.ir_flags.specs.Bits as bit;

    type Bits = u8;

    ghost exact = { ⊤ };

    ghost table = { (codes "EXPRESSIONS", bit.EXPRESSIONS.0) ∷
        (codes "BLOCKS", bit.BLOCKS.0) ∷
        (codes "STRUCT_LAYOUTS", bit.STRUCT_LAYOUTS.0) ∷
        (codes "BINDINGS", bit.BINDINGS.0) ∷ [] };

    ghost set_of = { λ p. p.0 };

    fn flags<'a>() -> &'a [Flag<ValidationFlags>] {
        ValidationFlags::FLAGS
    }

    fn bits(&self) -> u8 {
        self.0
    }

    fn from_bits_retain(bits: u8) -> ValidationFlags {
        ValidationFlags(bits)
    }
}

impl ValidationFlags {
    /// Every check.
    pub const ALL: ValidationFlags = ValidationFlags(0xf);

    ghost use Rattle.ir_flags.specs.Bits.{contains};

    /// Whether the set has all of `some`.
    pub fn contains(self, some: ValidationFlags) -> bool
        ensures { result ≡ contains self.0 some.0 }
    {
        Flags::contains(&self, some)
    }
}

/// What a type can be used for. Bit k is the k-th name, counted from 0.
#[derive(Clone, Copy, PartialEq, Eq, Hash)]
pub struct TypeFlags(pub u8);

impl TypeFlags {
    pub const DATA: TypeFlags = TypeFlags(0x1);

    pub const SIZED: TypeFlags = TypeFlags(0x2);

    pub const COPY: TypeFlags = TypeFlags(0x4);

    pub const IO_SHAREABLE: TypeFlags = TypeFlags(0x8);

    pub const HOST_SHAREABLE: TypeFlags = TypeFlags(0x10);

    pub const CREATION_RESOLVED: TypeFlags = TypeFlags(0x20);

    pub const ARGUMENT: TypeFlags = TypeFlags(0x40);

    pub const CONSTRUCTIBLE: TypeFlags = TypeFlags(0x80);

    /// The bits with their names.
    pub const FLAGS: &'static [Flag<TypeFlags>] = named_bits!(TypeFlags:
        DATA, SIZED, COPY, IO_SHAREABLE, HOST_SHAREABLE, CREATION_RESOLVED, ARGUMENT, CONSTRUCTIBLE
    );
}

impl fmt::Debug for TypeFlags {
    fn fmt<W: fmt::Write>(&self, f: &mut fmt::Formatter<W>) -> fmt::Result {
        write_set("TypeFlags", self, f)
    }
}

impl Flags for TypeFlags {
    ghost use Rattle.ir_flags.specs.Bits as bit;

    type Bits = u8;

    ghost exact = { ⊤ };

    ghost table = { (codes "DATA", bit.DATA.0) ∷
        (codes "SIZED", bit.SIZED.0) ∷
        (codes "COPY", bit.COPY.0) ∷
        (codes "IO_SHAREABLE", bit.IO_SHAREABLE.0) ∷
        (codes "HOST_SHAREABLE", bit.HOST_SHAREABLE.0) ∷
        (codes "CREATION_RESOLVED", bit.CREATION_RESOLVED.0) ∷
        (codes "ARGUMENT", bit.ARGUMENT.0) ∷
        (codes "CONSTRUCTIBLE", bit.CONSTRUCTIBLE.0) ∷ [] };

    ghost set_of = { λ p. p.0 };

    fn flags<'a>() -> &'a [Flag<TypeFlags>] {
        TypeFlags::FLAGS
    }

    fn bits(&self) -> u8 {
        self.0
    }

    fn from_bits_retain(bits: u8) -> TypeFlags {
        TypeFlags(bits)
    }
}

impl TypeFlags {
    /// Every flag.
    pub const ALL: TypeFlags = TypeFlags(0xff);

    ghost use Rattle.ir_flags.specs.Bits.{contains};

    /// Whether the set has all of `some`.
    pub fn contains(self, some: TypeFlags) -> bool
        ensures { result ≡ contains self.0 some.0 }
    {
        Flags::contains(&self, some)
    }
}

/// How a function uses a global. Bit k is the k-th name, counted from 0.
#[derive(Clone, Copy, PartialEq, Eq, Hash)]
pub struct GlobalUse(pub u8);

impl GlobalUse {
    pub const READ: GlobalUse = GlobalUse(0x1);

    pub const WRITE: GlobalUse = GlobalUse(0x2);

    pub const QUERY: GlobalUse = GlobalUse(0x4);

    pub const ATOMIC: GlobalUse = GlobalUse(0x8);

    /// The bits with their names.
    pub const FLAGS: &'static [Flag<GlobalUse>] =
        named_bits!(GlobalUse: READ, WRITE, QUERY, ATOMIC);
}

impl fmt::Debug for GlobalUse {
    fn fmt<W: fmt::Write>(&self, f: &mut fmt::Formatter<W>) -> fmt::Result {
        write_set("GlobalUse", self, f)
    }
}

impl Flags for GlobalUse {
    ghost use Rattle.ir_flags.specs.Bits as bit;

    type Bits = u8;

    ghost exact = { ⊤ };

    ghost table = { (codes "READ", bit.READ.0) ∷
        (codes "WRITE", bit.WRITE.0) ∷
        (codes "QUERY", bit.QUERY.0) ∷
        (codes "ATOMIC", bit.ATOMIC_USE.0) ∷ [] };

    ghost set_of = { λ p. p.0 };

    fn flags<'a>() -> &'a [Flag<GlobalUse>] {
        GlobalUse::FLAGS
    }

    fn bits(&self) -> u8 {
        self.0
    }

    fn from_bits_retain(bits: u8) -> GlobalUse {
        GlobalUse(bits)
    }
}

impl GlobalUse {
    ghost use Rattle.ir_flags.specs.Bits.{contains};

    /// Whether the set has all of `some`.
    pub fn contains(self, some: GlobalUse) -> bool
        ensures { result ≡ contains self.0 some.0 }
    {
        Flags::contains(&self, some)
    }
}

/// The groups of subgroup operations that a target has. Bit k is the k-th name, counted from 0.
#[derive(Clone, Copy, PartialEq, Eq, Hash)]
pub struct SubgroupOperationSet(pub u8);

impl SubgroupOperationSet {
    pub const BASIC: SubgroupOperationSet = SubgroupOperationSet(0x1);

    pub const VOTE: SubgroupOperationSet = SubgroupOperationSet(0x2);

    pub const ARITHMETIC: SubgroupOperationSet = SubgroupOperationSet(0x4);

    pub const BALLOT: SubgroupOperationSet = SubgroupOperationSet(0x8);

    pub const SHUFFLE: SubgroupOperationSet = SubgroupOperationSet(0x10);

    pub const SHUFFLE_RELATIVE: SubgroupOperationSet = SubgroupOperationSet(0x20);

    pub const QUAD: SubgroupOperationSet = SubgroupOperationSet(0x40);

    /// The bits with their names.
    pub const FLAGS: &'static [Flag<SubgroupOperationSet>] = named_bits!(SubgroupOperationSet:
        BASIC, VOTE, ARITHMETIC, BALLOT, SHUFFLE, SHUFFLE_RELATIVE, QUAD
    );
}

impl fmt::Debug for SubgroupOperationSet {
    fn fmt<W: fmt::Write>(&self, f: &mut fmt::Formatter<W>) -> fmt::Result {
        write_set("SubgroupOperationSet", self, f)
    }
}

impl Flags for SubgroupOperationSet {
    ghost use Rattle.ir_flags.specs.Bits as bit;

    type Bits = u8;

    ghost exact = { ⊤ };

    ghost table = { (codes "BASIC", bit.BASIC.0) ∷
        (codes "VOTE", bit.VOTE.0) ∷
        (codes "ARITHMETIC", bit.ARITHMETIC.0) ∷
        (codes "BALLOT", bit.BALLOT.0) ∷
        (codes "SHUFFLE", bit.SHUFFLE.0) ∷
        (codes "SHUFFLE_RELATIVE", bit.SHUFFLE_RELATIVE.0) ∷
        (codes "QUAD", bit.QUAD.0) ∷ [] };

    ghost set_of = { λ p. p.0 };

    fn flags<'a>() -> &'a [Flag<SubgroupOperationSet>] {
        SubgroupOperationSet::FLAGS
    }

    fn bits(&self) -> u8 {
        self.0
    }

    fn from_bits_retain(bits: u8) -> SubgroupOperationSet {
        SubgroupOperationSet(bits)
    }
}

impl SubgroupOperationSet {
    /// Every group of operations.
    pub const ALL: SubgroupOperationSet = SubgroupOperationSet(0x7f);

    ghost use Rattle.ir_flags.specs.Bits.{contains};

    /// Whether the set has all of `some`.
    pub fn contains(self, some: SubgroupOperationSet) -> bool
        ensures { result ≡ contains self.0 some.0 }
    {
        Flags::contains(&self, some)
    }
}

/// The stages in which a function may run. Bit k is the k-th stage, counted from 0.
///
/// `COMPUTE_LIKE` is compute, mesh and task.
#[derive(Clone, Copy, PartialEq, Eq, Hash)]
pub struct ShaderStages(pub u16);

impl ShaderStages {
    pub const VERTEX: ShaderStages = ShaderStages(0x1);

    pub const FRAGMENT: ShaderStages = ShaderStages(0x2);

    pub const COMPUTE: ShaderStages = ShaderStages(0x4);

    pub const MESH: ShaderStages = ShaderStages(0x8);

    pub const TASK: ShaderStages = ShaderStages(0x10);

    pub const RAY_GENERATION: ShaderStages = ShaderStages(0x20);

    pub const ANY_HIT: ShaderStages = ShaderStages(0x40);

    pub const CLOSEST_HIT: ShaderStages = ShaderStages(0x80);

    pub const MISS: ShaderStages = ShaderStages(0x100);

    pub const COMPUTE_LIKE: ShaderStages = ShaderStages(0x1c);

    /// The bits with their names.
    pub const FLAGS: &'static [Flag<ShaderStages>] = named_bits!(ShaderStages:
        VERTEX, FRAGMENT, COMPUTE, MESH, TASK, RAY_GENERATION, ANY_HIT, CLOSEST_HIT, MISS,
        COMPUTE_LIKE
    );
}

impl fmt::Debug for ShaderStages {
    fn fmt<W: fmt::Write>(&self, f: &mut fmt::Formatter<W>) -> fmt::Result {
        write_set("ShaderStages", self, f)
    }
}

impl Flags for ShaderStages {
    ghost use Rattle.ir_flags.specs.Bits as bit;

    type Bits = u16;

    ghost exact = { ⊤ };

    ghost table = { (codes "VERTEX", bit.VERTEX.0) ∷
        (codes "FRAGMENT", bit.FRAGMENT.0) ∷
        (codes "COMPUTE", bit.COMPUTE.0) ∷
        (codes "MESH", bit.MESH.0) ∷
        (codes "TASK", bit.TASK.0) ∷
        (codes "RAY_GENERATION", bit.RAY_GENERATION.0) ∷
        (codes "ANY_HIT", bit.ANY_HIT.0) ∷
        (codes "CLOSEST_HIT", bit.CLOSEST_HIT.0) ∷
        (codes "MISS", bit.MISS.0) ∷
        (codes "COMPUTE_LIKE", bit.COMPUTE_LIKE.0) ∷ [] };

    ghost set_of = { λ p. p.0 };

    fn flags<'a>() -> &'a [Flag<ShaderStages>] {
        ShaderStages::FLAGS
    }

    fn bits(&self) -> u16 {
        self.0
    }

    fn from_bits_retain(bits: u16) -> ShaderStages {
        ShaderStages(bits)
    }
}

impl ShaderStages {
    /// Every stage.
    pub const ALL: ShaderStages = ShaderStages(0x1ff);

    ghost use Rattle.ir_flags.specs.Bits.{contains};

    /// Whether the set has all of `some`.
    pub fn contains(self, some: ShaderStages) -> bool
        ensures { result ≡ contains self.0 some.0 }
    {
        Flags::contains(&self, some)
    }
}
