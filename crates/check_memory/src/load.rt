//! The check list of WorkGroupUniformLoad.

ghost use Rattle.std.specs.Prelude.{◌≡◌, ◌<◌, ◌∷◌, [], OnOk, IfSome, length};
ghost use Rattle.check_scope.specs.walk.Findings.{RefusesFaultsAlone};
ghost use Rattle.ir_facts.specs.Answers.{Answers, Finds, FirstOf};
ghost use Rattle.check_scope.specs.Context.{ContextFits};
ghost use Rattle.check_memory.specs.Load.{points_into_work_group, loaded_type_at, points_to, load_points};
ghost use Rattle.check_scope.specs.walk.Place.{place_at};
ghost use Rattle.check_scope.specs.walk.SeenContext.{context_of};
ghost use Rattle.check_scope.specs.walk.Table.{HasPut, count, known};

use crate::atomic::atomic_scalar_at;
use check_scope::context::BlockContext;
use check_scope::pointers::space;
use check_scope::refuse::{answer, check_put, check_use};
use check_scope::table::ScopeColumn;
use check_scope::types::{is_equivalent, is_scalar};
use ir_arena::handle::Handle;
use ir_arena::span::Span;
use ir_arena::{Refused, tag};
use ir_errors::function::FunctionError;
use ir_module::expressions::Expression;
use ir_types::types::{AddressSpace, TypeInner};

/// WorkGroupUniformLoad: its pointer and its result, which is in scope afterwards.
pub fn validate_load(
    scope: &mut ScopeColumn,
    context: &BlockContext,
    pointer: Handle<tag::Expression>,
    loaded: Handle<tag::Expression>,
    span: Span,
) -> Result<(), Refused<FunctionError>>
    requires context { ContextFits (context_of context.now) }
    requires result { loaded < count scope.old }
    ensures fault { Answers (FirstOf (load_points (context_of context.now) (place_at (known scope.old)) pointer
        loaded)) result }
    ensures refused { RefusesFaultsAlone
        (load_points (context_of context.now) (place_at (known scope.old)) pointer loaded) result }
    ensures scope { OnOk result (HasPut scope.old scope.new (loaded ∷ [])) }
{
    let alloc = scope.allocator();
    let checked = check_load(scope, context, pointer, loaded);
    answer(alloc, checked, span)?;
    scope.put(loaded);
    Ok(())
}

/// The check list of a load. Its result stays out of scope.
fn check_load(
    scope: &ScopeColumn,
    context: &BlockContext,
    pointer: Handle<tag::Expression>,
    loaded: Handle<tag::Expression>,
) -> Result<(), FunctionError>
    requires { ContextFits (context_of context.now) }
    ensures { Finds (FirstOf (load_points (context_of context.now) (place_at (known scope.now)) pointer
        loaded)) result }
{
    check_use(scope, pointer)?;
    if !points_into_work_group(space(context, pointer)) {
        return Err(FunctionError::WorkgroupUniformLoadInvalidPointer(pointer));
    }
    check_put(scope, loaded)?;
    let Some(ty) = loaded_type(context, loaded) else {
        return Err(FunctionError::WorkgroupUniformLoadExpressionMismatch(loaded));
    };
    if !points_to(context, pointer, ty) {
        return Err(FunctionError::WorkgroupUniformLoadInvalidPointer(pointer));
    }
    Ok(())
}

/// Whether the space that a pointer points into is that of work groups.
fn points_into_work_group(space: Option<AddressSpace>) -> bool
    ensures { result ≡ points_into_work_group space }
{
    match space {
        Some(space) => space.is_work_group(),
        None => false,
    }
}

/// The type that the result of a load is declared with.
fn loaded_type(context: &BlockContext, loaded: Handle<tag::Expression>) -> Option<Handle<tag::Type>>
    requires { ContextFits (context_of context.now) }
    ensures is { result ≡ loaded_type_at (context_of context.now) loaded }
    ensures fits { IfSome result (λ ty. ty < length (context_of context.now).program.types) }
{
    match context.expression(loaded) {
        Some(Expression::WorkGroupUniformLoadResult { ty }) => Some(*ty),
        _ => None,
    }
}

/// Whether a pointer in the work group is one to this type, or to an atomic of this scalar.
fn points_to(
    context: &BlockContext,
    pointer: Handle<tag::Expression>,
    ty: Handle<tag::Type>,
) -> bool
    requires context { ContextFits (context_of context.now) }
    requires ty { ty < length (context_of context.now).program.types }
    ensures { result ≡ points_to (context_of context.now) pointer ty }
{
    let program = context.program;
    let expected = TypeInner::Pointer {
        base: ty,
        space: AddressSpace::WorkGroup,
    };
    if is_equivalent(program, context.type_inner(pointer), Some(&expected)) {
        return true;
    }
    match atomic_scalar_at(context, pointer) {
        Some(scalar) => is_scalar(scalar, Some(&program.types[ty].inner)),
        None => false,
    }
}
