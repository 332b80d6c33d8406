//! Scalars, and sizes of vectors.

ghost use Rattle.json_values.specs.Scalars.{scalar_kind_of, scalar_of, vector_size_of};

use crate::error::ReadError;
use crate::from_json::{FromJson, Held};
use crate::variant::read_name;
use ir_leaves::{Scalar, ScalarKind, VectorSize};

/// The kinds of scalars.
const SCALAR_KINDS: [(&str, ScalarKind); 6] = [
    ("Sint", ScalarKind::Sint),
    ("Uint", ScalarKind::Uint),
    ("Float", ScalarKind::Float),
    ("Bool", ScalarKind::Bool),
    ("AbstractInt", ScalarKind::AbstractInt),
    ("AbstractFloat", ScalarKind::AbstractFloat),
];

impl<R: Copy> FromJson<R> for ScalarKind {
    ghost stands_for = { scalar_kind_of };

    fn from_json(_: R, held: Held) -> Result<Self, ReadError> {
        read_name(held.alloc, held.value, &SCALAR_KINDS)
    }
}

impl<R: Copy> FromJson<R> for Scalar {
    ghost stands_for = { scalar_of };

    fn from_json(reader: R, held: Held) -> Result<Self, ReadError> {
        match held.two(reader, &("kind", "width")) {
            Ok((kind, width)) => Ok(Scalar { kind, width }),
            Err(error) => Err(error),
        }
    }
}

/// The sizes of vectors.
const VECTOR_SIZES: [(&str, VectorSize); 3] = [
    ("Bi", VectorSize::Bi),
    ("Tri", VectorSize::Tri),
    ("Quad", VectorSize::Quad),
];

impl<R: Copy> FromJson<R> for VectorSize {
    ghost stands_for = { vector_size_of };

    fn from_json(_: R, held: Held) -> Result<Self, ReadError> {
        read_name(held.alloc, held.value, &VECTOR_SIZES)
    }
}
