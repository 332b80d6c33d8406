//! What pointers point to.

ghost use Rattle.std.specs.Prelude.{◌≡◌, IfSome, length};
ghost use Rattle.ir_types.specs.Types.{ResolutionFits};
ghost use Rattle.check_scope.specs.Context.{ContextFits};
ghost use Rattle.check_scope.specs.Pointers.{base_type_at, space_at, is_writable};
ghost use Rattle.check_scope.specs.walk.SeenContext.{context_of};

use crate::context::BlockContext;
use ir_arena::handle::Handle;
use ir_arena::tag;
use ir_flags::ir::StorageAccess;
use ir_types::types::AddressSpace;
use ir_types::typifier::TypeResolution;

/// The type that a pointer points to.
pub fn base_type(context: &BlockContext, pointer: Handle<tag::Expression>) -> Option<TypeResolution>
    requires { ContextFits (context_of context.now) }
    ensures is { result ≡ base_type_at (context_of context.now) pointer }
    ensures fits { IfSome result (ResolutionFits (length (context_of context.now).program.types)) }
{
    match context.type_inner(pointer) {
        Some(inner) => inner.pointer_base_type(),
        None => None,
    }
}

/// Whether the space that a pointer points into takes stores.
pub fn is_writable(context: &BlockContext, pointer: Handle<tag::Expression>) -> bool
    ensures { result ≡ is_writable (context_of context.now) pointer }
{
    match space(context, pointer) {
        Some(space) => space.access().contains(StorageAccess::STORE),
        None => false,
    }
}

/// The space that a pointer points into.
pub fn space(context: &BlockContext, pointer: Handle<tag::Expression>) -> Option<AddressSpace>
    ensures { result ≡ space_at (context_of context.now) pointer }
{
    match context.type_inner(pointer) {
        Some(inner) => inner.pointer_space(),
        None => None,
    }
}
