//! Sizes of types in bytes.

ghost use Rattle.std.specs.Prelude.{◌≡◌};
ghost use Rattle.layer_types.specs.Sizes.{components_of, aligned_components_of, size_of, size_at, is_aligned};

use ir_arena::handle::Handle;
use ir_arena::tag;
use ir_leaves::scalars::VectorSize;
use ir_types::type_methods::inner_at;
use ir_types::types::{ArraySize, Type, TypeInner};

/// The size of the type with a handle, in bytes, where it is known before the pipeline is made and fits 32 bits.
pub fn size_at(types: &[Type], ty: Handle<tag::Type>) -> Option<u32>
    ensures { result ≡ size_at types.now ty }
{
    match inner_at(types, ty) {
        Some(inner) => size_of(inner),
        None => None,
    }
}

/// The size of a type, in bytes. It is read off the type alone: a struct has its span, an array its stride.
pub(crate) fn size_of(inner: &TypeInner) -> Option<u32>
    ensures { result ≡ size_of inner.now }
{
    match inner {
        TypeInner::Scalar(scalar) | TypeInner::Atomic(scalar) => Some(u32::from(scalar.width)),
        TypeInner::Vector { size, scalar } => Some(components_of(*size) * u32::from(scalar.width)),
        TypeInner::Matrix {
            columns,
            rows,
            scalar,
        } => Some(
            components_of(*columns) * (aligned_components_of(*rows) * u32::from(scalar.width)),
        ),
        TypeInner::Struct { span, .. } => Some(*span),
        TypeInner::Array { size, stride, .. } => match size {
            ArraySize::Constant(count) => count.get().checked_mul(*stride),
            _ => None,
        },
        _ => None,
    }
}

/// How many components a vector has.
pub fn components_of(size: VectorSize) -> u32
    ensures { result ≡ components_of size }
{
    match size {
        VectorSize::Bi => 2,
        VectorSize::Tri => 3,
        VectorSize::Quad => 4,
    }
}

/// For how many components a vector has room where it is aligned.
pub(crate) fn aligned_components_of(size: VectorSize) -> u32
    ensures { result ≡ aligned_components_of size }
{
    match size {
        VectorSize::Bi => 2,
        VectorSize::Tri | VectorSize::Quad => 4,
    }
}

/// Whether something of this alignment can lie at this many bytes.
pub(crate) fn is_aligned(alignment: u32, bytes: u32) -> bool
    ensures { result ≡ is_aligned alignment bytes }
{
    alignment != 0 && bytes % alignment == 0
}
