//! Scalars, and the numbers of components of vectors.

/// The kind of a scalar. Nothing here checks that a type has no abstract kind.
#[derive(Clone, Copy, PartialEq, Eq, PartialOrd, Ord, Hash, Debug)]
pub enum ScalarKind {
    Sint,
    Uint,
    Float,
    Bool,
    AbstractInt,
    AbstractFloat,
}

/// A number or a bool.
#[derive(Clone, Copy, PartialEq, Eq, PartialOrd, Ord, Hash, Debug)]
pub struct Scalar {
    pub kind: ScalarKind,
    /// In bytes. Nothing here checks that a bool has 1.
    pub width: u8,
}

impl Scalar {
    /// A signed integer of 32 bits.
    pub const I32: Scalar = Scalar {
        kind: ScalarKind::Sint,
        width: 4,
    };

    /// An unsigned integer of 32 bits.
    pub const U32: Scalar = Scalar {
        kind: ScalarKind::Uint,
        width: 4,
    };

    /// A float of 32 bits.
    pub const F32: Scalar = Scalar {
        kind: ScalarKind::Float,
        width: 4,
    };

    /// A signed integer of 64 bits.
    pub const I64: Scalar = Scalar {
        kind: ScalarKind::Sint,
        width: 8,
    };

    /// An unsigned integer of 64 bits.
    pub const U64: Scalar = Scalar {
        kind: ScalarKind::Uint,
        width: 8,
    };

    /// A bool, of one byte.
    pub const BOOL: Scalar = Scalar {
        kind: ScalarKind::Bool,
        width: 1,
    };
}

/// The number of components of a vector: 2, 3 or 4.
#[derive(Clone, Copy, PartialEq, Eq, PartialOrd, Ord, Hash, Debug)]
pub enum VectorSize {
    Bi,
    Tri,
    Quad,
}
