//! The check list of Atomic.

ghost use Rattle.std.specs.Prelude.{◌≡◌, ◌<◌, OnOk, IfSome, Some, is_some};
ghost use Rattle.std.specs.Option.{option_copied};
ghost use Rattle.ir_statements.specs.View.{put_if};
ghost use Rattle.naga_runs.specs.PutsAndUses.{puts_of};
ghost use Rattle.check_scope.specs.walk.Findings.{RefusesFaultsAlone};
ghost use Rattle.ir_facts.specs.Answers.{Answers, Finds, FirstOf};
ghost use Rattle.check_memory.specs.Atomic.{atomic_scalar_at, is_int64, is_float32, is_plain_exchange, is_done_on_floats, int64_capability, scalar_points, is_atomic_result, is_comparison, result_type_at, atomic_result_points, atomic_points};
ghost use Rattle.check_memory.specs.walk.AtomicParts.{operated_points, compared_points, exchanged_points, uncompared_points};
ghost use Rattle.check_scope.specs.Context.{ContextFits};
ghost use Rattle.check_scope.specs.walk.Place.{place_at};
ghost use Rattle.check_scope.specs.walk.SeenContext.{context_of};
ghost use Rattle.check_scope.specs.walk.Table.{HasPut, count, filled_in, known};

use check_scope::context::BlockContext;
use check_scope::refuse::{answer, check_put, check_use};
use check_scope::results::is_fresh;
use check_scope::table::{FilledColumn, ScopeColumn};
use check_scope::types::{is_equivalent, is_exchange_struct, is_integer_kind, is_scalar};
use ir_arena::handle::Handle;
use ir_arena::span::Span;
use ir_arena::{Refused, tag};
use ir_errors::function::{AtomicError, FunctionError};
use ir_flags::capabilities::Capabilities;
use ir_leaves::scalars::{Scalar, ScalarKind};
use ir_module::expressions::Expression;
use ir_statements::operations::AtomicFunction;
use ir_types::type_methods::inner_at;
use ir_types::types::{AddressSpace, TypeInner};

/// An atomic operation: where the atomic is, what is done to it, with which value, and the result that is named, if one is.
#[derive(Clone, Copy)]
pub struct AtomicOperation {
    pub pointer: Handle<tag::Expression>,
    pub fun: AtomicFunction,
    pub value: Handle<tag::Expression>,
    pub named: Option<Handle<tag::Expression>>,
}

/// The atomic that a pointer points to: its scalar, and where it lies.
#[derive(Clone, Copy)]
pub(crate) struct Atomic {
    scalar: Scalar,
    space: AddressSpace,
}

/// Atomic: its pointer, its value and its result, which is in scope afterwards.
pub fn validate_atomic(
    scope: &mut ScopeColumn,
    filled: &FilledColumn,
    context: &BlockContext,
    operation: &AtomicOperation,
    span: Span,
) -> Result<(), Refused<FunctionError>>
    requires context { ContextFits (context_of context.now) }
    requires result { IfSome operation.now.named (λ r. r < count scope.old) }
    ensures fault { Answers (FirstOf (atomic_points (context_of context.now) (filled_in filled.now)
        (place_at (known scope.old)) operation.now.pointer operation.now.fun operation.now.value
        operation.now.named)) result }
    ensures refused { RefusesFaultsAlone
        (atomic_points (context_of context.now) (filled_in filled.now) (place_at (known scope.old)) operation.now.pointer
        operation.now.fun operation.now.value operation.now.named)
        result }
    ensures scope { OnOk result (HasPut scope.old scope.new (puts_of (put_if operation.now.named))) }
{
    let alloc = scope.allocator();
    let checked = check_atomic(scope, filled, context, operation);
    answer(alloc, checked, span)?;
    if let Some(handle) = &operation.named {
        scope.put(*handle);
    }
    Ok(())
}

/// All that is checked of an atomic operation. Its result stays out of scope.
fn check_atomic(
    scope: &ScopeColumn,
    filled: &FilledColumn,
    context: &BlockContext,
    operation: &AtomicOperation,
) -> Result<(), FunctionError>
    requires { ContextFits (context_of context.now) }
    ensures { Finds (FirstOf (atomic_points (context_of context.now) (filled_in filled.now) (place_at (known scope.now))
        operation.now.pointer operation.now.fun operation.now.value operation.now.named)) result }
{
    let AtomicOperation { pointer, value, .. } = *operation;
    check_use(scope, pointer)?;
    let Some(TypeInner::Pointer { base, space }) = context.type_inner(pointer) else {
        return Err(FunctionError::InvalidAtomic(AtomicError::InvalidPointer(pointer)));
    };
    let Some(TypeInner::Atomic(scalar)) = inner_at(context.program.types.as_slice(), *base) else {
        return Err(FunctionError::InvalidAtomic(AtomicError::InvalidPointer(pointer)));
    };
    check_use(scope, value)?;
    if !is_scalar(*scalar, context.type_inner(value)) {
        return Err(FunctionError::InvalidAtomic(AtomicError::InvalidOperand(value)));
    }
    let atomic = Atomic {
        scalar: *scalar,
        space: *space,
    };
    check_operation(scope, filled, context, atomic, operation)
}

/// The scalar of the atomic that an expression points to.
pub(crate) fn atomic_scalar_at(
    context: &BlockContext,
    pointer: Handle<tag::Expression>,
) -> Option<Scalar>
    ensures { result ≡ atomic_scalar_at (context_of context.now) pointer }
{
    let Some(TypeInner::Pointer { base, .. }) = context.type_inner(pointer) else {
        return None;
    };
    match inner_at(context.program.types.as_slice(), *base) {
        Some(TypeInner::Atomic(scalar)) => Some(*scalar),
        _ => None,
    }
}

/// What the atomic's scalar asks for, and the result.
#[tactic(auto, using(ir_arena::proofs::Points::first_of_both))]
fn check_operation(
    scope: &ScopeColumn,
    filled: &FilledColumn,
    context: &BlockContext,
    atomic: Atomic,
    operation: &AtomicOperation,
) -> Result<(), FunctionError>
    requires { ContextFits (context_of context.now) }
    ensures { Finds (FirstOf (operated_points (context_of context.now) (filled_in filled.now)
        (place_at (known scope.now)) atomic.scalar atomic.space operation.now.fun operation.now.value
        operation.now.named)) result }
{
    check_scalar(
        context.settings.capabilities,
        atomic.scalar,
        &atomic.space,
        &operation.fun,
        operation.named.is_some(),
    )?;
    check_atomic_result(scope, filled, context, atomic.scalar, operation)
}

/// What the atomic's scalar asks for.
fn check_scalar(
    capabilities: Capabilities,
    scalar: Scalar,
    space: &AddressSpace,
    fun: &AtomicFunction,
    has_result: bool,
) -> Result<(), FunctionError>
    ensures { Finds (FirstOf (scalar_points capabilities scalar space.now fun.now has_result)) result }
{
    if is_int64(scalar) {
        let needed = int64_capability(fun, space, has_result);
        let all_ops = Capabilities::SHADER_INT64_ATOMIC_ALL_OPS;
        if !capabilities.contains(all_ops) && !capabilities.contains(needed) {
            return Err(FunctionError::InvalidAtomic(AtomicError::MissingCapability(needed)));
        }
    } else if is_float32(scalar) {
        let needed = Capabilities::SHADER_FLOAT32_ATOMIC;
        if !capabilities.contains(needed) {
            return Err(FunctionError::InvalidAtomic(AtomicError::MissingCapability(needed)));
        }
        if !is_done_on_floats(fun) {
            return Err(FunctionError::InvalidAtomic(AtomicError::InvalidOperator(*fun)));
        }
        if !space.is_storage() {
            return Err(FunctionError::InvalidAtomic(AtomicError::InvalidAddressSpace(*space)));
        }
    }
    Ok(())
}

fn is_int64(scalar: Scalar) -> bool
    ensures { result ≡ is_int64 scalar }
{
    is_integer_kind(Some(scalar.kind)) && scalar.width == 8
}

fn is_float32(scalar: Scalar) -> bool
    ensures { result ≡ is_float32 scalar }
{
    matches!(scalar.kind, ScalarKind::Float) && scalar.width == 4
}

/// The weakest capability that lets an operation be done on an integer of 64 bits.
fn int64_capability(fun: &AtomicFunction, space: &AddressSpace, has_result: bool) -> Capabilities
    ensures { result ≡ int64_capability fun.now space.now has_result }
{
    if fun.is_min_or_max() && space.is_storage() && !has_result {
        Capabilities::SHADER_INT64_ATOMIC_MIN_MAX
    } else {
        Capabilities::SHADER_INT64_ATOMIC_ALL_OPS
    }
}

fn is_done_on_floats(fun: &AtomicFunction) -> bool
    ensures { result ≡ is_done_on_floats fun.now }
{
    matches!(
        fun,
        AtomicFunction::Add | AtomicFunction::Subtract | AtomicFunction::Exchange { compare: None }
    )
}

/// The result. One that is named is an atomic result, fresh, of the right type, and not in scope yet. An exchange that
/// compares nothing names one.
#[tactic(auto, using(ir_arena::proofs::Points::first_of_both))]
fn check_atomic_result(
    scope: &ScopeColumn,
    filled: &FilledColumn,
    context: &BlockContext,
    scalar: Scalar,
    operation: &AtomicOperation,
) -> Result<(), FunctionError>
    requires { ContextFits (context_of context.now) }
    ensures { Finds (FirstOf (atomic_result_points (context_of context.now) (filled_in filled.now)
        (place_at (known scope.now)) scalar operation.now.fun operation.now.value operation.now.named)) result }
{
    let Some(handle) = operation.named else {
        if is_plain_exchange(&operation.fun) {
            return Err(FunctionError::InvalidAtomic(AtomicError::MissingReturnValue));
        }
        return Ok(());
    };
    if !is_atomic_result(context.expression(handle)) {
        let error = AtomicError::InvalidResultExpression(handle);
        return Err(FunctionError::InvalidAtomic(error));
    }
    if !is_fresh(filled, context, handle) {
        return Err(FunctionError::InvalidAtomic(AtomicError::ResultAlreadyPopulated(handle)));
    }
    let value = operation.value;
    match &operation.fun {
        AtomicFunction::Exchange {
            compare: Some(compare),
        } => {
            check_compared(scope, context, *compare, value)?;
            check_exchanged(scope, context, scalar, handle)
        }
        _ => check_uncompared(scope, context, value, handle),
    }
}

/// Whether an operation is an exchange that compares nothing.
fn is_plain_exchange(fun: &AtomicFunction) -> bool
    ensures { result ≡ is_plain_exchange fun.now }
{
    matches!(fun, AtomicFunction::Exchange { compare: None })
}

fn is_atomic_result(expression: Option<&Expression>) -> bool
    ensures { result ≡ is_atomic_result (option_copied expression.entry) }
{
    matches!(expression, Some(Expression::AtomicResult { .. }))
}

/// What a compare exchange compares with.
fn check_compared(
    scope: &ScopeColumn,
    context: &BlockContext,
    compare: Handle<tag::Expression>,
    value: Handle<tag::Expression>,
) -> Result<(), FunctionError>
    requires { ContextFits (context_of context.now) }
    ensures { Finds (FirstOf (compared_points (context_of context.now) (place_at (known scope.now)) compare
        value)) result }
{
    check_use(scope, compare)?;
    if !is_equivalent(
        context.program,
        context.type_inner(compare),
        context.type_inner(value),
    ) {
        return Err(FunctionError::InvalidAtomic(AtomicError::InvalidOperand(compare)));
    }
    Ok(())
}

/// The result of a compare exchange: of the struct that it gives, not in scope yet.
fn check_exchanged(
    scope: &ScopeColumn,
    context: &BlockContext,
    scalar: Scalar,
    handle: Handle<tag::Expression>,
) -> Result<(), FunctionError>
    requires { ContextFits (context_of context.now) }
    ensures { Finds (FirstOf (exchanged_points (context_of context.now) (place_at (known scope.now)) scalar
        handle)) result }
{
    if !is_exchange_struct(context.program, scalar, result_type(context, handle)) {
        return Err(FunctionError::InvalidAtomic(AtomicError::ResultTypeMismatch(handle)));
    }
    if !is_comparison(context.expression(handle)) {
        let error = AtomicError::ResultExpressionNotExchange(handle);
        return Err(FunctionError::InvalidAtomic(error));
    }
    check_put(scope, handle)
}

/// Of any other operation: a result of the value's type, not in scope yet.
fn check_uncompared(
    scope: &ScopeColumn,
    context: &BlockContext,
    value: Handle<tag::Expression>,
    handle: Handle<tag::Expression>,
) -> Result<(), FunctionError>
    requires { ContextFits (context_of context.now) }
    ensures { Finds (FirstOf (uncompared_points (context_of context.now) (place_at (known scope.now)) value
        handle)) result }
{
    let program = context.program;
    if !is_equivalent(
        program,
        result_type(context, handle),
        context.type_inner(value),
    ) {
        return Err(FunctionError::InvalidAtomic(AtomicError::ResultTypeMismatch(handle)));
    }
    if is_comparison(context.expression(handle)) {
        let error = AtomicError::ResultExpressionExchange(handle);
        return Err(FunctionError::InvalidAtomic(error));
    }
    check_put(scope, handle)
}

/// The type that an atomic result is declared with.
fn result_type<'a>(
    context: &BlockContext<'a>,
    handle: Handle<tag::Expression>,
) -> Option<&'a TypeInner>
    ensures { option_copied result ≡ result_type_at (context_of context.now) handle }
{
    match context.expression(handle) {
        Some(Expression::AtomicResult { ty, .. }) => inner_at(
            context.program.types.as_slice(),
            *ty,
        ),
        _ => None,
    }
}

/// Whether an atomic result is that of a compare exchange.
fn is_comparison(expression: Option<&Expression>) -> bool
    ensures { result ≡ is_comparison (option_copied expression.entry) }
{
    match expression {
        Some(Expression::AtomicResult { comparison, .. }) => *comparison,
        _ => false,
    }
}
