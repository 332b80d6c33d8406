//! Infos of a module's types.

ghost use Rattle.std.specs.Prelude.{◌≡◌, [], IfOk};
ghost use Rattle.layer_types.specs.ComputedInfos.{ill_formed, pointer_info, binding_info, own_info, info_of, infos_from};

use crate::arrays::array_info;
use crate::leaves::{info, leaf_info, pointer_flags};
use crate::parts::{NOT_WELL_FORMED, part_at};
use crate::structs::struct_info;
use bitflags::Flags;
use ir_arena::handle::Handle;
use ir_arena::sequence::Sequence;
use ir_arena::tag;
use ir_flags::valid::TypeFlags;
use ir_types::type_info::{ImmediateError, TypeInfo};
use ir_types::types::{AddressSpace, Type, TypeInner};
use ir_types::unique_arena::UniqueArena;
use std::alloc::{AllocError, Global};

/// The info of each type of a module, by its handle. An Err is out of memory.
///
/// A type that isn't well formed has no flags, and no buffer takes it.
#[tactic(auto, unfolding(crate::specs::ComputedInfos::infos_from))]
pub fn infos_of_types(
    alloc: Global,
    types: &UniqueArena<Type>,
) -> Result<Sequence<TypeInfo>, AllocError>
    ensures { IfOk result (λ infos. infos ≡ infos_from types.now [] types.now) }
{
    let mut infos = Sequence::new(alloc);
    let count = types.len() as u32;
    for index in 0..count {
        let handle = Handle::new(index);
        let all = types.as_slice();
        let info = info_of(all, infos.as_slice(), handle, &types[handle].inner);
        infos.push(info)?;
    }
    Ok(infos)
}

/// The info of a type that isn't well formed.
fn ill_formed(own: Handle<tag::Type>) -> TypeInfo
    ensures { result ≡ ill_formed own }
{
    TypeInfo {
        flags: TypeFlags::empty(),
        storage_layout: Err((own, NOT_WELL_FORMED)),
        uniform_layout: Err((own, NOT_WELL_FORMED)),
        immediates_compatibility: Err(ImmediateError(0)),
    }
}

/// The info of the type with a handle, of those of the types before it.
fn info_of(
    types: &[Type],
    earlier: &[TypeInfo],
    own: Handle<tag::Type>,
    inner: &TypeInner,
) -> TypeInfo
    ensures { result ≡ info_of types.now earlier.now own inner.now }
{
    match own_info(types, earlier, own, inner) {
        Some(info) => info,
        None => ill_formed(own),
    }
}

/// The info of a type; `None` where it isn't well formed.
fn own_info(
    types: &[Type],
    earlier: &[TypeInfo],
    own: Handle<tag::Type>,
    inner: &TypeInner,
) -> Option<TypeInfo>
    ensures { result ≡ own_info types.now earlier.now own inner.now }
{
    match inner {
        TypeInner::Pointer { base, space } => pointer_info(
            earlier.get(base.index()).copied(),
            *space,
        ),
        TypeInner::Array { base, size, stride } => {
            let part = part_at(types, earlier, *base)?;
            array_info(own, &part, size, *stride)
        }
        TypeInner::Struct { members, span } => {
            struct_info(types, earlier, own, members.as_slice(), *span)
        }
        TypeInner::BindingArray { base, .. } => binding_info(earlier.get(base.index()).copied()),
        _ => leaf_info(inner),
    }
}

/// The info of a pointer to a type with this info.
fn pointer_info(base: Option<TypeInfo>, space: AddressSpace) -> Option<TypeInfo>
    ensures { result ≡ pointer_info base space }
{
    let base = base?;
    if base.flags.contains(TypeFlags::DATA) {
        let is_sized = base.flags.contains(TypeFlags::SIZED);
        Some(info(pointer_flags(space, is_sized), 1))
    } else {
        None
    }
}

/// The info of a binding array of types with this info.
fn binding_info(base: Option<TypeInfo>) -> Option<TypeInfo>
    ensures { result ≡ binding_info base }
{
    let base = base?;
    if base.flags.0 == 0 {
        None
    } else {
        Some(info(TypeFlags::empty(), 1))
    }
}
