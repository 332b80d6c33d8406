//! Infos of arrays.

ghost use Rattle.std.specs.Prelude.{◌≡◌};
ghost use Rattle.layer_types.specs.Arrays.{kept_flags, fits_count, fits_items, uniform_array, array_info};

use crate::parts::{BAD_STRIDE, DataPart};
use crate::sizes::is_aligned;
use bitflags::Flags;
use ir_arena::handle::Handle;
use ir_arena::tag;
use ir_flags::valid::TypeFlags;
use ir_types::type_info::{Disalignment, TypeInfo};
use ir_types::types::ArraySize;

/// DATA, SIZED, COPY, HOST_SHAREABLE, CREATION_RESOLVED, ARGUMENT, CONSTRUCTIBLE.
const CONSTANT: TypeFlags = TypeFlags(0xf7);
/// DATA, SIZED, COPY, HOST_SHAREABLE, ARGUMENT.
const PENDING: TypeFlags = TypeFlags(0x57);
/// DATA, HOST_SHAREABLE, CREATION_RESOLVED.
const DYNAMIC: TypeFlags = TypeFlags(0x31);

/// What an array of this size can be used for, if what it holds can.
fn kept_flags(size: &ArraySize) -> TypeFlags
    ensures { result ≡ kept_flags size.now }
{
    match size {
        ArraySize::Constant(_) => CONSTANT,
        ArraySize::Pending(_) => PENDING,
        ArraySize::Dynamic => DYNAMIC,
    }
}

/// Whether the size of an array fits 32 bits, where it is known.
fn fits_count(size: &ArraySize, stride: u32) -> bool
    ensures { result ≡ fits_count size.now stride }
{
    match size {
        ArraySize::Constant(count) => count.get().checked_mul(stride).is_some(),
        ArraySize::Pending(_) | ArraySize::Dynamic => true,
    }
}

/// Whether items lie apart and aligned.
fn fits_items(part: &DataPart, stride: u32) -> bool
    ensures { result ≡ fits_items part.now.size part.now.alignment stride }
{
    match part.size {
        Some(size) => size <= stride && is_aligned(part.alignment, stride),
        None => false,
    }
}

/// The layout of an array in a uniform buffer.
fn uniform_array(
    own: Handle<tag::Type>,
    layout: Result<u32, (Handle<tag::Type>, Disalignment)>,
    stride: u32,
) -> Result<u32, (Handle<tag::Type>, Disalignment)>
    ensures { result ≡ uniform_array own layout stride }
{
    match layout {
        Err(bad) => Err(bad),
        Ok(alignment) => {
            if stride % 16 == 0 {
                Ok(alignment.max(16))
            } else {
                Err((own, BAD_STRIDE))
            }
        }
    }
}

/// The info of an array; `None` where it isn't well formed.
pub(crate) fn array_info(
    own: Handle<tag::Type>,
    part: &DataPart,
    size: &ArraySize,
    stride: u32,
) -> Option<TypeInfo>
    ensures { result ≡ array_info own part.now size.now stride }
{
    if !part.info.flags.contains(TypeFlags::SIZED) {
        return None;
    }
    if !fits_items(part, stride) {
        return None;
    }
    if !fits_count(size, stride) {
        return None;
    }
    Some(TypeInfo {
        flags: part.info.flags.intersection(kept_flags(size)),
        storage_layout: Ok(part.alignment),
        uniform_layout: uniform_array(own, part.info.uniform_layout, stride),
        immediates_compatibility: part.info.immediates_compatibility,
    })
}
