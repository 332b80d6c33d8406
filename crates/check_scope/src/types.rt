//! Types, as the checks ask for them.

ghost use Rattle.std.specs.Prelude.{◌≡◌, IfSome, length};
ghost use Rattle.std.specs.Option.{option_copied};
ghost use Rattle.ir_types.specs.Types.{NamesTypesBelow, ResolutionFits};
ghost use Rattle.check_scope.specs.walk.SeenContext.{context_of};
ghost use Rattle.check_scope.specs.Context.{ContextFits};
ghost use Rattle.check_scope.specs.ExpressionTypes.{is_integer_kind, is_of_type};
ghost use Rattle.ir_types.specs.TypeTests.{both_are, is_same_inner, is_scalar, is_equivalent, it_is, is_exchange_struct};

use crate::context::BlockContext;
use ir_arena::handle::Handle;
use ir_arena::tag;
use ir_leaves::scalars::{Scalar, ScalarKind};
use ir_module::module::Module;
use ir_types::type_methods::compare_types;
use ir_types::types::TypeInner;
use ir_types::typifier::TypeResolution;

/// Whether a type is this scalar.
pub fn is_scalar(scalar: Scalar, inner: Option<&TypeInner>) -> bool
    ensures { result ≡ is_scalar scalar (option_copied inner.entry) }
{
    match inner {
        Some(inner) => *inner == TypeInner::Scalar(scalar),
        None => false,
    }
}

/// Whether both are there, and their canonical forms are equal.
pub fn is_equivalent(
    program: &Module,
    first: Option<&TypeInner>,
    second: Option<&TypeInner>,
) -> bool
    requires first { IfSome (option_copied first) (NamesTypesBelow (length program.now.types)) }
    requires second { IfSome (option_copied second) (NamesTypesBelow (length program.now.types)) }
    ensures { result ≡ both_are (is_equivalent program.now.types) (option_copied first.entry) (option_copied second.entry) }
{
    match first {
        Some(first) => match second {
            Some(second) => first.equivalent(second, &program.types),
            None => false,
        },
        None => false,
    }
}

/// Whether a type is the struct that an atomic compare exchange of a scalar gives.
pub fn is_exchange_struct(program: &Module, scalar: Scalar, inner: Option<&TypeInner>) -> bool
    requires { IfSome (option_copied inner) (NamesTypesBelow (length program.now.types)) }
    ensures { result ≡ it_is (is_exchange_struct program.now.types scalar) (option_copied inner.entry) }
{
    match inner {
        Some(inner) => inner.is_compare_exchange_struct(scalar, &program.types),
        None => false,
    }
}

/// Whether both are there, and the same inside.
pub fn are_same_inners(first: Option<&TypeInner>, second: Option<&TypeInner>) -> bool
    ensures { result ≡ both_are is_same_inner (option_copied first.entry) (option_copied second.entry) }
{
    match first {
        Some(first) => match second {
            Some(second) => *first == *second,
            None => false,
        },
        None => false,
    }
}

/// Whether an expression is of this type.
#[inline]
pub fn is_of_type(
    context: &BlockContext,
    handle: Handle<tag::Expression>,
    ty: &TypeResolution,
) -> bool
    requires context { ContextFits (context_of context.now) }
    requires ty { ResolutionFits (length (context_of context.now).program.types) ty.now }
    ensures { result ≡ is_of_type (context_of context.now) handle ty.now }
{
    match context.resolution(handle) {
        Some(given) => compare_types(given, ty, &context.program.types),
        None => false,
    }
}

/// Whether a kind is that of integers of either sign.
pub fn is_integer_kind(kind: Option<ScalarKind>) -> bool
    ensures { result ≡ is_integer_kind kind }
{
    matches!(kind, Some(ScalarKind::Uint | ScalarKind::Sint))
}
