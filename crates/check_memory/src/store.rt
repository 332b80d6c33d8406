//! The check list of Store.

ghost use Rattle.std.specs.Prelude.{◌≡◌, ◌<◌, ◌↔◌, true, IsTrue, Some, length};
ghost use Rattle.std.specs.Option.{option_copied};
ghost use Rattle.ir_errors.specs.declared.function.FunctionError.TheVariants.{InvalidStoreTexture};
ghost use Rattle.ir_arena.specs.Refusals.{IsRefusalFor};
ghost use Rattle.check_scope.specs.walk.Findings.{AllHold, RefusesFaultsAlone};
ghost use Rattle.ir_facts.specs.Answers.{Answers, FirstOf, IsFirstFault};
ghost use Rattle.check_scope.specs.Context.{ContextFits};
ghost use Rattle.check_scope.specs.walk.Place.{place_at};
ghost use Rattle.check_scope.specs.walk.SeenContext.{context_of};
ghost use Rattle.check_memory.specs.Store.{is_variable, is_texture, is_stored_as, store_points};
ghost use Rattle.check_scope.specs.Pointers.{base_type_at};
ghost use Rattle.check_scope.specs.ExpressionTypes.{named_type};
ghost use Rattle.ir_types.specs.declared.typifier.TypeResolution.TheVariants.{Handle as OfHandle};
ghost use Rattle.check_scope.specs.walk.Table.{KnowsRoots, known};

use check_scope::context::BlockContext;
use check_scope::pointers::{base_type, is_writable};
use check_scope::refuse::not_in_scope;
use check_scope::roots::root_at;
use check_scope::table::{RootColumn, ScopeColumn};
use check_scope::types::{is_of_type, is_scalar};
use ir_arena::handle::Handle;
use ir_arena::span::Span;
use ir_arena::{Refused, tag};
use ir_errors::function::FunctionError;
use ir_module::expressions::Expression;
use ir_types::types::TypeInner;
use ir_types::typifier::TypeResolution;
use std::alloc::Global;

/// Store: a pointer that leads back to a variable or an argument; a value, which is no texture; the type that is pointed to
/// holds it, and its space takes stores.
pub fn check_store(
    scope: &ScopeColumn,
    roots: &mut RootColumn,
    context: &BlockContext,
    pointer: Handle<tag::Expression>,
    value: Handle<tag::Expression>,
    span: &Span,
) -> Result<(), Refused<FunctionError>>
    requires context { ContextFits (context_of context.now) }
    requires roots { KnowsRoots (context_of context.now) roots.old }
    ensures fault { Answers (FirstOf (store_points (context_of context.now) (place_at (known scope.now)) pointer
        value)) result }
    ensures refused { RefusesFaultsAlone
        (store_points (context_of context.now) (place_at (known scope.now)) pointer value) result }
    ensures roots { KnowsRoots (context_of context.now) roots.new }
{
    if store_holds(scope, roots, context, pointer, value) {
        return Ok(());
    }
    Err(refused_store(scope, context, pointer, value, span))
}

/// Whether no point of a Store fails.
fn store_holds(
    scope: &ScopeColumn,
    roots: &mut RootColumn,
    context: &BlockContext,
    pointer: Handle<tag::Expression>,
    value: Handle<tag::Expression>,
) -> bool
    requires context { ContextFits (context_of context.now) }
    requires roots { KnowsRoots (context_of context.now) roots.old }
    ensures holds { IsTrue result ↔ AllHold
        (store_points (context_of context.now) (place_at (known scope.now)) pointer value) }
    ensures roots { KnowsRoots (context_of context.now) roots.new }
{
    is_variable(context.expression(roots.root_at(context, pointer)))
        && scope.may_use(value)
        && !is_texture(context.type_inner(value))
        && is_stored_at(context, value, pointer)
        && is_writable(context, pointer)
}

/// The refusal of a Store of which a point fails. What it answers is small, so that whoever asks has no room to clear
/// while all is well.
#[cold]
#[inline(never)]
fn refused_store(
    scope: &ScopeColumn,
    context: &BlockContext,
    pointer: Handle<tag::Expression>,
    value: Handle<tag::Expression>,
    span: &Span,
) -> Refused<FunctionError>
    requires context { ContextFits (context_of context.now) }
    requires fails { AllHold
        (store_points (context_of context.now) (place_at (known scope.now)) pointer value) → ⊥ }
    ensures { IsFirstFault
        (store_points (context_of context.now) (place_at (known scope.now)) pointer value) result }
{
    match first_fault_of_store(scope, context, pointer, value, span) {
        Err(refused) => refused,
        Ok(()) => unreachable!(),
    }
}

/// The list of a Store, with the fault of each point.
fn first_fault_of_store(
    scope: &ScopeColumn,
    context: &BlockContext,
    pointer: Handle<tag::Expression>,
    value: Handle<tag::Expression>,
    span: &Span,
) -> Result<(), Refused<FunctionError>>
    requires { ContextFits (context_of context.now) }
    ensures fault { Answers (FirstOf (store_points (context_of context.now) (place_at (known scope.now)) pointer
        value)) result }
    ensures refused { RefusesFaultsAlone
        (store_points (context_of context.now) (place_at (known scope.now)) pointer value) result }
{
    let alloc = scope.allocator();
    let root = root_at(context, pointer);
    if !is_variable(context.expression(root)) {
        let fault = FunctionError::InvalidStorePointer(root);
        return Err(Refused::placed(alloc, fault, *span));
    }
    if !scope.may_use(value) {
        return Err(not_in_scope(alloc, value, *span));
    }
    let stored = context.type_inner(value);
    if is_texture(stored) {
        return Err(invalid_store_texture(alloc, value, stored, *span));
    }
    if !is_stored_at(context, value, pointer) {
        let fault = FunctionError::InvalidStoreTypes { pointer, value };
        return Err(Refused::placed(alloc, fault, *span));
    }
    if !is_writable(context, pointer) {
        let fault = FunctionError::InvalidStorePointer(pointer);
        return Err(Refused::placed(alloc, fault, *span));
    }
    Ok(())
}

/// Whether an expression is a variable or an argument.
fn is_variable(expression: Option<&Expression>) -> bool
    ensures { result ≡ is_variable (option_copied expression.entry) }
{
    match expression {
        None => false,
        Some(
            Expression::LocalVariable(_)
            | Expression::GlobalVariable(_)
            | Expression::FunctionArgument(_),
        ) => true,
        Some(
            Expression::Literal(_)
            | Expression::Constant(_)
            | Expression::Override(_)
            | Expression::ZeroValue(_)
            | Expression::Compose { .. }
            | Expression::Access { .. }
            | Expression::AccessIndex { .. }
            | Expression::Load { .. }
            | Expression::CallResult(_)
            | Expression::AtomicResult { .. }
            | Expression::WorkGroupUniformLoadResult { .. }
            | Expression::RayQueryProceedResult
            | Expression::SubgroupBallotResult
            | Expression::SubgroupOperationResult { .. }
            | Expression::Splat { .. }
            | Expression::Swizzle { .. }
            | Expression::ImageSample { .. }
            | Expression::ImageLoad { .. }
            | Expression::ImageQuery { .. }
            | Expression::Unary { .. }
            | Expression::Binary { .. }
            | Expression::Select { .. }
            | Expression::Derivative { .. }
            | Expression::Relational { .. }
            | Expression::Math { .. }
            | Expression::As { .. }
            | Expression::ArrayLength { .. }
            | Expression::RayQueryGetIntersection { .. }
            | Expression::RayQueryVertexPositions { .. }
            | Expression::CooperativeLoad { .. }
            | Expression::CooperativeMultiplyAdd { .. },
        ) => false,
    }
}

/// Whether a type is that of an image or of a sampler, which is never stored.
fn is_texture(inner: Option<&TypeInner>) -> bool
    ensures { result ≡ is_texture (option_copied inner.entry) }
{
    matches!(
        inner,
        Some(TypeInner::Image { .. } | TypeInner::Sampler { .. })
    )
}

/// Whether a value is what a pointer's type holds. Most pointers point to a type of the module.
fn is_stored_at(
    context: &BlockContext,
    value: Handle<tag::Expression>,
    pointer: Handle<tag::Expression>,
) -> bool
    requires { ContextFits (context_of context.now) }
    ensures { result ≡ is_stored_as (context_of context.now) value (base_type_at (context_of context.now) pointer) }
{
    if let Some(TypeInner::Pointer { base, .. }) = context.type_inner(pointer) {
        return is_stored_as_type(context, value, *base);
    }
    is_stored_behind(context, value, pointer)
}

/// The same, whatever the pointer points to. It stands apart, so that nothing is set up for a type that isn't the module's.
#[inline(never)]
fn is_stored_behind(
    context: &BlockContext,
    value: Handle<tag::Expression>,
    pointer: Handle<tag::Expression>,
) -> bool
    requires { ContextFits (context_of context.now) }
    ensures { result ≡ is_stored_as (context_of context.now) value (base_type_at (context_of context.now) pointer) }
{
    let Some(base) = base_type(context, pointer) else {
        return false;
    };
    match base.inner_with(&context.program.types) {
        TypeInner::Atomic(scalar) => is_scalar(*scalar, context.type_inner(value)),
        _ => is_of_type(context, value, &base),
    }
}

/// Whether a value is what a type of the module holds: an atomic its scalar, any other a value of the type.
fn is_stored_as_type(
    context: &BlockContext,
    value: Handle<tag::Expression>,
    ty: Handle<tag::Type>,
) -> bool
    requires context { ContextFits (context_of context.now) }
    requires ty { ty < length (context_of context.now).program.types }
    ensures { result ≡ is_stored_as (context_of context.now) value (Some (OfHandle ty)) }
{
    match &context.program.types[ty].inner {
        TypeInner::Atomic(scalar) => is_scalar(*scalar, context.type_inner(value)),
        _ => is_of_type(context, value, &TypeResolution::Handle(ty)),
    }
}

/// The refusal of an image or a sampler as a value.
fn invalid_store_texture(
    alloc: Global,
    value: Handle<tag::Expression>,
    inner: Option<&TypeInner>,
    span: Span,
) -> Refused<FunctionError>
    requires { is_texture (option_copied inner) ≡ true }
    ensures { IsRefusalFor (InvalidStoreTexture value (named_type (option_copied inner.entry))) result }
{
    let actual_ty = match inner {
        Some(
            TypeInner::Image {
                dim,
                arrayed,
                class,
            },
        ) => TypeInner::Image {
            dim: *dim,
            arrayed: *arrayed,
            class: *class,
        },
        Some(TypeInner::Sampler { comparison }) => TypeInner::Sampler {
            comparison: *comparison,
        },
        _ => unreachable!(),
    };
    let fault = FunctionError::InvalidStoreTexture {
        actual: value,
        actual_ty,
    };
    Refused::placed(alloc, fault, span)
}
