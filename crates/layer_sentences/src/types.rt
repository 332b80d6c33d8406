//! Types in WGSL's words.

use ir_arena::{Handle, tag};
use ir_leaves::scalars::{Scalar, ScalarKind, VectorSize};
use ir_types::types::{Type, TypeInner};
use ir_types::unique_arena::UniqueArena;
use std::fmt;

/// A scalar, as `f32`.
fn write_scalar<W: fmt::Write>(writer: &mut W, scalar: Scalar) -> fmt::Result {
    let bits = u32::from(scalar.width) * 8;
    match scalar.kind {
        ScalarKind::Sint => write!(writer, "i{bits}"),
        ScalarKind::Uint => write!(writer, "u{bits}"),
        ScalarKind::Float => write!(writer, "f{bits}"),
        ScalarKind::Bool => writer.write_str("bool"),
        ScalarKind::AbstractInt => writer.write_str("an abstract integer"),
        ScalarKind::AbstractFloat => writer.write_str("an abstract float"),
    }
}

/// How many components there are.
fn count_of(size: VectorSize) -> u32 {
    match size {
        VectorSize::Bi => 2,
        VectorSize::Tri => 3,
        VectorSize::Quad => 4,
    }
}

/// A vector, as `vec3<f32>`.
fn write_vector<W: fmt::Write>(writer: &mut W, size: VectorSize, scalar: Scalar) -> fmt::Result {
    let count = count_of(size);
    write!(writer, "vec{count}<")?;
    write_scalar(writer, scalar)?;
    writer.write_str(">")
}

/// A matrix, as `mat2x3<f32>`.
fn write_matrix<W: fmt::Write>(
    writer: &mut W,
    columns: VectorSize,
    rows: VectorSize,
    scalar: Scalar,
) -> fmt::Result {
    let columns = count_of(columns);
    let rows = count_of(rows);
    write!(writer, "mat{columns}x{rows}<")?;
    write_scalar(writer, scalar)?;
    writer.write_str(">")
}

/// The type with a handle, by its name, if it has one.
fn write_base<W: fmt::Write>(
    writer: &mut W,
    types: &UniqueArena<Type>,
    handle: Handle<tag::Type>,
) -> fmt::Result {
    match types.as_slice().get(handle.index()) {
        Some(ty) => match &ty.name {
            Some(name) => writer.write_str(name.as_str()),
            None => write_leaf(writer, &ty.inner),
        },
        None => writer.write_str("a type that isn't there"),
    }
}

/// A type that has no parts, or the kind of another one.
fn write_leaf<W: fmt::Write>(writer: &mut W, inner: &TypeInner) -> fmt::Result {
    match inner {
        TypeInner::Scalar(scalar) => write_scalar(writer, *scalar),
        TypeInner::Vector { size, scalar } => write_vector(writer, *size, *scalar),
        TypeInner::Matrix {
            columns,
            rows,
            scalar,
        } => write_matrix(writer, *columns, *rows, *scalar),
        TypeInner::CooperativeMatrix { .. } => writer.write_str("a cooperative matrix"),
        TypeInner::Atomic(scalar) => {
            writer.write_str("atomic<")?;
            write_scalar(writer, *scalar)?;
            writer.write_str(">")
        }
        TypeInner::Pointer { .. } | TypeInner::ValuePointer { .. } => writer.write_str("a pointer"),
        TypeInner::Array { .. } => writer.write_str("an array"),
        TypeInner::Struct { .. } => writer.write_str("a struct"),
        TypeInner::Image { .. } => writer.write_str("an image"),
        TypeInner::Sampler { .. } => writer.write_str("a sampler"),
        TypeInner::AccelerationStructure { .. } => writer.write_str("an acceleration structure"),
        TypeInner::RayQuery { .. } => writer.write_str("a ray query"),
        TypeInner::BindingArray { .. } => writer.write_str("a binding array"),
    }
}

/// What a pointer or an array holds, after what it is.
fn write_held<W: fmt::Write>(
    writer: &mut W,
    before: &str,
    types: &UniqueArena<Type>,
    held: Handle<tag::Type>,
) -> fmt::Result {
    writer.write_str(before)?;
    write_base(writer, types, held)
}

/// A pointer to a vector of a size, or to a scalar.
fn write_value_pointer<W: fmt::Write>(
    writer: &mut W,
    size: Option<VectorSize>,
    scalar: Scalar,
) -> fmt::Result {
    writer.write_str("a pointer to ")?;
    match size {
        Some(size) => write_vector(writer, size, scalar),
        None => write_scalar(writer, scalar),
    }
}

/// Writes a type, as `vec3<f32>`, or `a pointer to f32`. What a pointer or an array has in it stands by its name or its kind.
///
/// An Err is that of the writer.
pub(crate) fn write_type<W: fmt::Write>(
    writer: &mut W,
    types: &UniqueArena<Type>,
    inner: &TypeInner,
) -> fmt::Result {
    match inner {
        TypeInner::Pointer { base, .. } => write_held(writer, "a pointer to ", types, *base),
        TypeInner::Array { base, .. } => write_held(writer, "an array of ", types, *base),
        TypeInner::BindingArray { base, .. } => {
            write_held(writer, "a binding array of ", types, *base)
        }
        TypeInner::ValuePointer { size, scalar, .. } => {
            write_value_pointer(writer, *size, *scalar)
        }
        _ => write_leaf(writer, inner),
    }
}
