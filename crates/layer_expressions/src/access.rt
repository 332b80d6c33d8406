//! The types of accesses and loads.

ghost use Rattle.std.specs.Prelude.{◌≡◌};
ghost use Rattle.std.specs.Option.{option_copied};
ghost use Rattle.layer_expressions.specs.Access.{value_item, pointer_item, item_of, is_index, access_type, item_count, count_behind, is_below, member_of, access_index_type, is_loadable, loaded_at, loaded};

use crate::rules::Rule;
use ir_arena::handle::Handle;
use ir_arena::tag;
use ir_types::type_methods::inner_at;
use ir_types::types::{AddressSpace, ArraySize, Type, TypeInner};
use ir_types::typifier::TypeResolution;
use layer_shapes::resolutions::{pointer_to, type_at};
use layer_shapes::shapes::is_integer;
use layer_types::sizes::components_of;

/// The type of the items of a value.
fn value_item(count: usize, inner: &TypeInner) -> Option<TypeResolution>
    ensures { result ≡ value_item count inner.now }
{
    match inner {
        TypeInner::Array { base, .. } | TypeInner::BindingArray { base, .. } => type_at(
            count, *base,
        ),
        TypeInner::Matrix { rows, scalar, .. } => Some(TypeResolution::Value(TypeInner::Vector {
            size: *rows,
            scalar: *scalar,
        })),
        TypeInner::Vector { scalar, .. } => Some(TypeResolution::Value(TypeInner::Scalar(*scalar))),
        _ => None,
    }
}

/// A pointer to an item of what a pointer into a space points to.
fn pointer_item(count: usize, space: AddressSpace, inner: &TypeInner) -> Option<TypeResolution>
    ensures { result ≡ pointer_item count space inner.now }
{
    match inner {
        TypeInner::Array { base, .. } | TypeInner::BindingArray { base, .. } => {
            pointer_to(count, *base, space)
        }
        TypeInner::Matrix { rows, scalar, .. } => {
            Some(TypeResolution::Value(TypeInner::ValuePointer {
                size: Some(*rows),
                scalar: *scalar,
                space,
            }))
        }
        TypeInner::Vector { scalar, .. } => Some(TypeResolution::Value(TypeInner::ValuePointer {
            size: None,
            scalar: *scalar,
            space,
        })),
        _ => None,
    }
}

/// The type of an item of a value, or of a pointer to an item.
fn item_of(types: &[Type], inner: &TypeInner) -> Option<TypeResolution>
    ensures { result ≡ item_of types.now inner.now }
{
    match inner {
        TypeInner::Pointer { base, space } => {
            let base = inner_at(types, *base)?;
            pointer_item(types.len(), *space, base)
        }
        TypeInner::ValuePointer {
            size: Some(_),
            scalar,
            space,
        } => Some(TypeResolution::Value(TypeInner::ValuePointer {
            size: None,
            scalar: *scalar,
            space: *space,
        })),
        _ => value_item(types.len(), inner),
    }
}

/// Whether a type is an integer scalar.
fn is_index(inner: &TypeInner) -> bool
    ensures { result ≡ is_index inner.now }
{
    match inner {
        TypeInner::Scalar(scalar) => is_integer(scalar.kind),
        _ => false,
    }
}

/// The type of an `Access`.
pub(crate) fn access_type(
    types: &[Type],
    base: Option<&TypeInner>,
    index: Option<&TypeInner>,
) -> Result<TypeResolution, Rule>
    ensures { result ≡ access_type types.now (option_copied base.entry) (option_copied index.entry) }
{
    let Some(base) = base else {
        return Err(Rule::Access);
    };
    let Some(index) = index else {
        return Err(Rule::Index);
    };
    if !is_index(index) {
        return Err(Rule::Index);
    }
    match item_of(types, base) {
        Some(item) => Ok(item),
        None => Err(Rule::Access),
    }
}

/// How many items or members a type has, where the number is known.
fn item_count(inner: &TypeInner) -> Option<usize>
    ensures { result ≡ item_count inner.now }
{
    match inner {
        TypeInner::Vector { size, .. } => Some(components_of(*size) as usize),
        TypeInner::Matrix { columns, .. } => Some(components_of(*columns) as usize),
        TypeInner::Array { size, .. } | TypeInner::BindingArray { size, .. } => match size {
            ArraySize::Constant(count) => Some(count.get() as usize),
            ArraySize::Pending(_) | ArraySize::Dynamic => None,
        },
        TypeInner::Struct { members, .. } => Some(members.len()),
        _ => None,
    }
}

/// How many items or members there are behind a pointer, or in a value.
fn count_behind(types: &[Type], inner: &TypeInner) -> Option<usize>
    ensures { result ≡ count_behind types.now inner.now }
{
    match inner {
        TypeInner::Pointer { base, .. } => {
            let base = inner_at(types, *base)?;
            item_count(base)
        }
        TypeInner::ValuePointer {
            size: Some(size),
            ..
        } => Some(components_of(*size) as usize),
        _ => item_count(inner),
    }
}

/// Whether an index lies below a number, where it is known.
fn is_below(count: Option<usize>, index: u32) -> bool
    ensures { result ≡ is_below count index }
{
    match count {
        Some(count) => (index as usize) < count,
        None => true,
    }
}

/// The type of a member, or of a pointer to a member.
fn member_of(types: &[Type], inner: &TypeInner, index: u32) -> Option<TypeResolution>
    ensures { result ≡ member_of types.now inner.now index }
{
    match inner {
        TypeInner::Struct { members, .. } => {
            let member = members.as_slice().get(index as usize)?;
            type_at(types.len(), member.ty)
        }
        TypeInner::Pointer { base, space } => {
            let base = inner_at(types, *base)?;
            match base {
                TypeInner::Struct { members, .. } => {
                    let member = members.as_slice().get(index as usize)?;
                    pointer_to(types.len(), member.ty, *space)
                }
                _ => pointer_item(types.len(), *space, base),
            }
        }
        _ => item_of(types, inner),
    }
}

/// The type of an `AccessIndex`.
pub(crate) fn access_index_type(
    types: &[Type],
    base: Option<&TypeInner>,
    index: u32,
) -> Result<TypeResolution, Rule>
    ensures { result ≡ access_index_type types.now (option_copied base.entry) index }
{
    let Some(base) = base else {
        return Err(Rule::Access);
    };
    if !is_below(count_behind(types, base), index) {
        return Err(Rule::Bounds);
    }
    match member_of(types, base, index) {
        Some(item) => Ok(item),
        None => Err(Rule::Access),
    }
}

/// Whether a value of a type can be loaded.
fn is_loadable(inner: &TypeInner) -> bool
    ensures { result ≡ is_loadable inner.now }
{
    match inner {
        TypeInner::Scalar(_)
        | TypeInner::Vector { .. }
        | TypeInner::Matrix { .. }
        | TypeInner::CooperativeMatrix { .. }
        | TypeInner::Struct { .. } => true,
        TypeInner::Array { size, .. } => match size {
            ArraySize::Dynamic => false,
            _ => true,
        },
        _ => false,
    }
}

/// What a pointer to a type gives.
fn loaded_at(ty: Handle<tag::Type>, inner: &TypeInner) -> Option<TypeResolution>
    ensures { result ≡ loaded_at ty inner.now }
{
    match inner {
        TypeInner::Atomic(scalar) => Some(TypeResolution::Value(TypeInner::Scalar(*scalar))),
        _ => {
            if is_loadable(inner) {
                Some(TypeResolution::Handle(ty))
            } else {
                None
            }
        }
    }
}

/// The type of what a pointer points to, where it can be loaded.
pub(crate) fn loaded(types: &[Type], pointer: &TypeInner) -> Option<TypeResolution>
    ensures { result ≡ loaded types.now pointer.now }
{
    match pointer {
        TypeInner::Pointer { base, .. } => {
            let inner = inner_at(types, *base)?;
            loaded_at(*base, inner)
        }
        TypeInner::ValuePointer {
            size: None,
            scalar,
            ..
        } => Some(TypeResolution::Value(TypeInner::Scalar(*scalar))),
        TypeInner::ValuePointer {
            size: Some(size),
            scalar,
            ..
        } => Some(TypeResolution::Value(TypeInner::Vector {
            size: *size,
            scalar: *scalar,
        })),
        _ => None,
    }
}
