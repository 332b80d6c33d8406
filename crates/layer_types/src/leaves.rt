//! Infos of the types that have no parts.

ghost use Rattle.std.specs.Prelude.{◌≡◌};
ghost use Rattle.layer_types.specs.LeafInfos.{is_known, is_float, is_atomic, is_number, value_flags, immediate_of, info, of_scalar, pointer_flags, image_info, known_info, leaf_info};

use crate::sizes::aligned_components_of;
use ir_flags::valid::TypeFlags;
use ir_leaves::scalars::{Scalar, ScalarKind};
use ir_types::type_info::{ImmediateError, TypeInfo};
use ir_types::types::{AddressSpace, ImageClass, TypeInner};

/// DATA, SIZED, COPY, CREATION_RESOLVED, ARGUMENT, CONSTRUCTIBLE.
const VALUE: TypeFlags = TypeFlags(0xe7);
/// These and HOST_SHAREABLE.
const MATRIX: TypeFlags = TypeFlags(0xf7);
/// DATA, SIZED, HOST_SHAREABLE, CREATION_RESOLVED.
const ATOMIC_FLAGS: TypeFlags = TypeFlags(0x33);
/// SIZED, COPY, CREATION_RESOLVED.
const POINTER: TypeFlags = TypeFlags(0x26);
/// These and ARGUMENT.
const POINTER_ARGUMENT: TypeFlags = TypeFlags(0x66);
/// CREATION_RESOLVED, ARGUMENT.
const OPAQUE: TypeFlags = TypeFlags(0x60);
/// DATA, SIZED, CREATION_RESOLVED, CONSTRUCTIBLE.
const RAY_QUERY: TypeFlags = TypeFlags(0xa3);

/// Whether there is a scalar of this kind and width.
pub fn is_known(scalar: Scalar) -> bool
    ensures { result ≡ is_known scalar }
{
    match scalar.kind {
        ScalarKind::Bool => scalar.width == 1,
        ScalarKind::Sint | ScalarKind::Uint => scalar.width == 4 || scalar.width == 8,
        ScalarKind::Float => scalar.width == 2 || scalar.width == 4 || scalar.width == 8,
        ScalarKind::AbstractInt | ScalarKind::AbstractFloat => false,
    }
}

/// Whether it is a known float.
fn is_float(scalar: Scalar) -> bool
    ensures { result ≡ is_float scalar }
{
    match scalar.kind {
        ScalarKind::Float => is_known(scalar),
        _ => false,
    }
}

/// Whether there are atomics of it.
fn is_atomic(scalar: Scalar) -> bool
    ensures { result ≡ is_atomic scalar }
{
    match scalar.kind {
        ScalarKind::Sint | ScalarKind::Uint => is_known(scalar),
        ScalarKind::Float => scalar.width == 4,
        _ => false,
    }
}

/// What a scalar or a vector of this kind can be used for.
fn value_flags(kind: ScalarKind) -> TypeFlags
    ensures { result ≡ value_flags kind }
{
    match kind {
        ScalarKind::Bool => VALUE,
        _ => TypeFlags::ALL,
    }
}

/// What a pointer into a space can be used for.
pub(crate) fn pointer_flags(space: AddressSpace, base_is_sized: bool) -> TypeFlags
    ensures { result ≡ pointer_flags space base_is_sized }
{
    match space {
        AddressSpace::Function | AddressSpace::Private => POINTER_ARGUMENT,
        AddressSpace::WorkGroup => {
            if base_is_sized {
                POINTER_ARGUMENT
            } else {
                POINTER
            }
        }
        AddressSpace::Uniform
        | AddressSpace::Storage { .. }
        | AddressSpace::Handle
        | AddressSpace::Immediate
        | AddressSpace::TaskPayload
        | AddressSpace::RayPayload
        | AddressSpace::IncomingRayPayload => POINTER,
    }
}

/// The info of a type of these flags and this alignment, which fits every buffer.
pub(crate) fn info(flags: TypeFlags, alignment: u32) -> TypeInfo
    ensures { result ≡ info flags alignment }
{
    TypeInfo {
        flags,
        storage_layout: Ok(alignment),
        uniform_layout: Ok(alignment),
        immediates_compatibility: Ok(()),
    }
}

/// Whether values of this scalar can be immediates.
fn immediate_of(scalar: Scalar) -> Result<(), ImmediateError>
    ensures { result ≡ immediate_of scalar }
{
    if scalar.width == 2 {
        Err(ImmediateError(1))
    } else {
        Ok(())
    }
}

/// The info of a type that is made of this scalar.
fn of_scalar(scalar: Scalar, flags: TypeFlags, alignment: u32) -> TypeInfo
    ensures { result ≡ of_scalar scalar flags alignment }
{
    TypeInfo {
        flags,
        storage_layout: Ok(alignment),
        uniform_layout: Ok(alignment),
        immediates_compatibility: immediate_of(scalar),
    }
}

/// This info, where the type is known.
fn known_info(is_there: bool, info: TypeInfo) -> Option<TypeInfo>
    ensures { result ≡ known_info is_there info }
{
    if is_there { Some(info) } else { None }
}

/// Whether a kind is that of numbers: integers and floats. Texels of sampled images are of these.
pub fn is_number(kind: ScalarKind) -> bool
    ensures { result ≡ is_number kind }
{
    match kind {
        ScalarKind::Sint | ScalarKind::Uint | ScalarKind::Float => true,
        _ => false,
    }
}

/// The info of an image of this class.
fn image_info(class: ImageClass) -> Option<TypeInfo>
    ensures { result ≡ image_info class }
{
    match class {
        ImageClass::Sampled { kind, .. } => known_info(is_number(kind), info(OPAQUE, 1)),
        _ => Some(info(OPAQUE, 1)),
    }
}

/// The info of a type that has no parts; `None` where it isn't well formed, or has parts.
pub(crate) fn leaf_info(inner: &TypeInner) -> Option<TypeInfo>
    ensures { result ≡ leaf_info inner.now }
{
    match inner {
        TypeInner::Scalar(scalar) => {
            let alignment = u32::from(scalar.width);
            let info = of_scalar(*scalar, value_flags(scalar.kind), alignment);
            known_info(is_known(*scalar), info)
        }
        TypeInner::Vector { size, scalar } => {
            let alignment = aligned_components_of(*size) * u32::from(scalar.width);
            let info = of_scalar(*scalar, value_flags(scalar.kind), alignment);
            known_info(is_known(*scalar), info)
        }
        TypeInner::Matrix { rows, scalar, .. } => {
            let alignment = aligned_components_of(*rows) * u32::from(scalar.width);
            known_info(is_float(*scalar), of_scalar(*scalar, MATRIX, alignment))
        }
        TypeInner::CooperativeMatrix { scalar, .. } => {
            let alignment = u32::from(scalar.width);
            known_info(is_float(*scalar), of_scalar(*scalar, VALUE, alignment))
        }
        TypeInner::Atomic(scalar) => {
            known_info(
                is_atomic(*scalar),
                info(ATOMIC_FLAGS, u32::from(scalar.width)),
            )
        }
        TypeInner::ValuePointer { scalar, space, .. } => {
            known_info(is_known(*scalar), info(pointer_flags(*space, true), 1))
        }
        TypeInner::Image { class, .. } => image_info(*class),
        TypeInner::Sampler { .. } | TypeInner::AccelerationStructure { .. } => Some(info(
            OPAQUE, 1,
        )),
        TypeInner::RayQuery { .. } => Some(info(RAY_QUERY, 1)),
        TypeInner::Pointer { .. }
        | TypeInner::Array { .. }
        | TypeInner::Struct { .. }
        | TypeInner::BindingArray { .. } => None,
    }
}
