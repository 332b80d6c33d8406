//! Types by their handles, and pointers to them.

ghost use Rattle.std.specs.Prelude.{◌≡◌};
ghost use Rattle.layer_shapes.specs.Resolutions.{type_at, pointer_to};

use ir_arena::handle::Handle;
use ir_arena::tag;
use ir_types::types::{AddressSpace, TypeInner};
use ir_types::typifier::TypeResolution;

/// The type with a handle, where the module has so many types.
pub fn type_at(count: usize, ty: Handle<tag::Type>) -> Option<TypeResolution>
    ensures { result ≡ type_at count ty }
{
    if ty.index() < count {
        Some(TypeResolution::Handle(ty))
    } else {
        None
    }
}

/// A pointer to the type with a handle, where the module has so many types.
pub fn pointer_to(
    count: usize,
    base: Handle<tag::Type>,
    space: AddressSpace,
) -> Option<TypeResolution>
    ensures { result ≡ pointer_to count base space }
{
    if base.index() < count {
        Some(TypeResolution::Value(TypeInner::Pointer { base, space }))
    } else {
        None
    }
}
