//! What arrays and structs hold, and the reasons for which a layout is bad.

ghost use Rattle.std.specs.Prelude.{◌≡◌, slice_get};
ghost use Rattle.ir_types.specs.Types.{inner_at};
ghost use Rattle.layer_types.specs.Parts.{data_part, part_of};

use crate::sizes::size_of;
use ir_arena::handle::Handle;
use ir_arena::tag;
use ir_flags::valid::TypeFlags;
use ir_types::type_info::{Disalignment, TypeInfo};
use ir_types::type_methods::{inner_at, is_struct};
use ir_types::types::{Type, TypeInner};

/// The type isn't well formed.
pub(crate) const NOT_WELL_FORMED: Disalignment = Disalignment(0);
/// In a uniform buffer: the stride of an array is no multiple of 16.
pub(crate) const BAD_STRIDE: Disalignment = Disalignment(1);
/// In a uniform buffer: a member of the struct isn't aligned.
pub(crate) const BAD_OFFSET: Disalignment = Disalignment(2);
/// In a uniform buffer: a member of the struct follows another struct too closely.
pub(crate) const TOO_CLOSE: Disalignment = Disalignment(3);

/// A type of data that an array or a struct holds.
#[derive(Clone, Copy)]
pub(crate) struct DataPart {
    pub info: TypeInfo,
    /// In bytes.
    pub alignment: u32,
    /// In bytes, where it is known before the pipeline is made.
    pub size: Option<u32>,
    pub is_struct: bool,
}

/// The type with a handle, where it is one of data that stands before and is well formed.
pub(crate) fn part_at(
    types: &[Type],
    earlier: &[TypeInfo],
    ty: Handle<tag::Type>,
) -> Option<DataPart>
    ensures { result ≡ part_of (slice_get earlier.now ty) (inner_at types.now ty) }
{
    let inner = inner_at(types, ty)?;
    match earlier.get(ty.index()) {
        Some(info) => data_part(info, inner),
        None => None,
    }
}

/// A type, where it is one of data and well formed.
fn data_part(info: &TypeInfo, inner: &TypeInner) -> Option<DataPart>
    ensures { result ≡ data_part info.now.storage_layout info.now inner.now }
{
    let Ok(alignment) = info.storage_layout else {
        return None;
    };
    if info.flags.contains(TypeFlags::DATA) {
        Some(DataPart {
            info: *info,
            alignment,
            size: size_of(inner),
            is_struct: is_struct(Some(inner)),
        })
    } else {
        None
    }
}
