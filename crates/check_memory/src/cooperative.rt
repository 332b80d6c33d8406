//! The check list of CooperativeStore.

ghost use Rattle.std.specs.Prelude.{◌≡◌};
ghost use Rattle.check_scope.specs.walk.Findings.{RefusesFaultsAlone};
ghost use Rattle.ir_facts.specs.Answers.{Answers, Finds, FirstOf};
ghost use Rattle.check_scope.specs.Context.{ContextFits};
ghost use Rattle.check_memory.specs.Cooperative.{matrix_scalar_at, base_scalar_at, cooperative_points};
ghost use Rattle.check_scope.specs.walk.Place.{place_at};
ghost use Rattle.check_scope.specs.walk.SeenContext.{context_of};
ghost use Rattle.check_scope.specs.walk.Table.{known};

use check_scope::context::BlockContext;
use check_scope::pointers::{base_type, is_writable};
use check_scope::refuse::{answer, check_use};
use check_scope::table::ScopeColumn;
use ir_arena::handle::Handle;
use ir_arena::span::Span;
use ir_arena::{Refused, tag};
use ir_errors::function::FunctionError;
use ir_leaves::scalars::Scalar;
use ir_types::types::TypeInner;

/// CooperativeStore: its target and its pointer.
pub fn check_cooperative_store(
    scope: &ScopeColumn,
    context: &BlockContext,
    target: Handle<tag::Expression>,
    pointer: Handle<tag::Expression>,
    span: Span,
) -> Result<(), Refused<FunctionError>>
    requires { ContextFits (context_of context.now) }
    ensures fault { Answers
        (FirstOf (cooperative_points (context_of context.now) (place_at (known scope.now)) target pointer)) result }
    ensures refused { RefusesFaultsAlone
        (cooperative_points (context_of context.now) (place_at (known scope.now)) target pointer) result }
{
    let checked = check_cooperative_store_points(scope, context, target, pointer);
    answer(scope.allocator(), checked, span)
}

/// A target, which is a cooperative matrix; the pointer points to its scalar, and its space takes stores.
fn check_cooperative_store_points(
    scope: &ScopeColumn,
    context: &BlockContext,
    target: Handle<tag::Expression>,
    pointer: Handle<tag::Expression>,
) -> Result<(), FunctionError>
    requires { ContextFits (context_of context.now) }
    ensures { Finds (FirstOf (cooperative_points (context_of context.now) (place_at (known scope.now)) target
        pointer)) result }
{
    check_use(scope, target)?;
    let Some(scalar) = matrix_scalar(context, target) else {
        return Err(FunctionError::InvalidCooperativeStoreTarget(target));
    };
    let holds = match base_scalar(context, pointer) {
        Some(given) => given == scalar,
        None => false,
    };
    if !holds {
        return Err(FunctionError::InvalidCooperativeDataPointer(pointer));
    }
    if !is_writable(context, pointer) {
        return Err(FunctionError::InvalidStorePointer(pointer));
    }
    Ok(())
}

/// The scalar of a cooperative matrix.
fn matrix_scalar(context: &BlockContext, target: Handle<tag::Expression>) -> Option<Scalar>
    ensures { result ≡ matrix_scalar_at (context_of context.now) target }
{
    match context.type_inner(target) {
        Some(TypeInner::CooperativeMatrix { scalar, .. }) => Some(*scalar),
        _ => None,
    }
}

/// The scalar of what a pointer points to.
fn base_scalar(context: &BlockContext, pointer: Handle<tag::Expression>) -> Option<Scalar>
    requires { ContextFits (context_of context.now) }
    ensures { result ≡ base_scalar_at (context_of context.now) pointer }
{
    match base_type(context, pointer) {
        Some(base) => base.inner_with(&context.program.types).scalar(),
        None => None,
    }
}
