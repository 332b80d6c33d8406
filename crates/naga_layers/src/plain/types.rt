//! Types of expressions.

ghost use Rattle.std.specs.Prelude.{◌≡◌, [], IfOk, option_and_then, slice_get};
ghost use Rattle.ir_arena.specs.declared.span.Refusal.TheVariants.{Fault};
ghost use Rattle.ir_errors.specs.declared.expression.ExpressionError.TheVariants.{Lower};
ghost use Rattle.ir_facts.specs.Answers.{Answers, Exactly};
ghost use Rattle.ir_errors.specs.declared.function.FunctionError.TheVariants.{Expression as InExpression};
ghost use Rattle.naga_layers.specs.Plain.Types.{loaded_type, first_of, result_type, type_of, types_from};
ghost use Rattle.layer_expressions.specs.Named.{named_type};

use ir_arena::handle::Handle;
use ir_arena::sequence::Sequence;
use ir_arena::span::{Refusal, WithSpan};
use ir_arena::tag;
use ir_errors::expression::ExpressionError;
use ir_errors::function::FunctionError;
use ir_module::expressions::Expression;
use ir_module::functions::Function;
use ir_module::module::Module;
use ir_types::typifier::TypeResolution;
use layer_expressions::named::named_type;
use layer_shapes::resolutions::type_at;
use std::alloc::{AllocError, Global};

/// The type of each expression of a function, or the first expression that has none here.
#[tactic(auto, unfolding(crate::specs::Plain::Types::types_from))]
pub(crate) fn types_of(
    alloc: Global,
    module: &Module,
    fun: &Function,
) -> Result<Sequence<TypeResolution>, Refusal<FunctionError>>
    ensures { Answers (Exactly (types_from «module».now fun.now [] fun.now.expressions)) result }
{
    let mut types = Sequence::new(alloc);
    let count = fun.expressions.len() as u32;
    for index in 0..count {
        let handle = Handle::new(index);
        match type_of(
            alloc,
            module,
            fun,
            types.as_slice(),
            &fun.expressions[handle],
        )? {
            Some(ty) => types.push(ty)?,
            None => return Err(untyped(alloc, handle)),
        }
    }
    Ok(types)
}

/// The refusal of an expression that has no type here.
fn untyped(alloc: Global, handle: Handle<tag::Expression>) -> Refusal<FunctionError>
    ensures { result ≡ Fault (InExpression handle (Lower 1)) }
{
    let fault = FunctionError::Expression {
        handle,
        source: ExpressionError::Lower(1),
    };
    Refusal::Fault(WithSpan::new(alloc, fault))
}

/// The type of an expression, of those of the expressions before it; `None` where it has none here.
fn type_of(
    alloc: Global,
    module: &Module,
    fun: &Function,
    earlier: &[TypeResolution],
    expression: &Expression,
) -> Result<Option<TypeResolution>, AllocError>
    ensures { IfOk result (λ ty. ty ≡ type_of «module».now fun.now earlier.now expression.now) }
{
    match expression {
        Expression::Load { pointer } => Ok(loaded_type_at(module, earlier, *pointer)),
        Expression::Unary { operands, .. } => type_of_first(alloc, earlier, operands.as_slice()),
        Expression::CallResult(function) => Ok(result_type(module, *function)),
        Expression::Literal(_)
        | Expression::Constant(_)
        | Expression::Override(_)
        | Expression::ZeroValue(_)
        | Expression::Compose { .. }
        | Expression::Access { .. }
        | Expression::AccessIndex { .. }
        | Expression::FunctionArgument(_)
        | Expression::GlobalVariable(_)
        | Expression::LocalVariable(_)
        | Expression::AtomicResult { .. }
        | Expression::WorkGroupUniformLoadResult { .. }
        | Expression::RayQueryProceedResult
        | Expression::SubgroupBallotResult
        | Expression::SubgroupOperationResult { .. }
        | Expression::Splat { .. }
        | Expression::Swizzle { .. }
        | Expression::ImageSample { .. }
        | Expression::ImageLoad { .. }
        | Expression::ImageQuery { .. }
        | Expression::Binary { .. }
        | Expression::Select { .. }
        | Expression::Derivative { .. }
        | Expression::Relational { .. }
        | Expression::Math { .. }
        | Expression::As { .. }
        | Expression::ArrayLength { .. }
        | Expression::RayQueryGetIntersection { .. }
        | Expression::RayQueryVertexPositions { .. }
        | Expression::CooperativeLoad { .. }
        | Expression::CooperativeMultiplyAdd { .. } => Ok(named_type_of(module, fun, expression)),
    }
}

/// The type of a function's result.
fn result_type(module: &Module, function: Handle<tag::Function>) -> Option<TypeResolution>
    ensures { result ≡ result_type «module».now function }
{
    let callee = module.functions.as_slice().get(function.index())?;
    let declared = callee.result?;
    type_at(module.types.len(), declared.ty)
}

/// The type of an expression that names something which has one.
// (a call, so that what the other arms give is handed on in memory and not in many pieces)
#[inline(never)]
fn named_type_of(module: &Module, fun: &Function, expression: &Expression) -> Option<TypeResolution>
    ensures { result ≡ named_type «module».now fun.now.arguments fun.now.local_variables expression.now }
{
    let arguments = fun.arguments.as_slice();
    let locals = fun.local_variables.as_slice();
    named_type(module, arguments, locals, expression)
}

/// The type that the pointer with a handle points to.
fn loaded_type_at(
    module: &Module,
    earlier: &[TypeResolution],
    pointer: Handle<tag::Expression>,
) -> Option<TypeResolution>
    ensures { result ≡ option_and_then (loaded_type «module».now) (slice_get earlier.now pointer) }
{
    let inner = match earlier.get(pointer.index())? {
        TypeResolution::Handle(ty) => &module.types.as_slice().get(ty.index())?.inner,
        TypeResolution::Value(inner) => inner,
    };
    match inner.pointer_base_type()? {
        TypeResolution::Handle(ty) => type_at(module.types.len(), ty),
        base => Some(base),
    }
}

/// The type of the first operand.
fn type_of_first(
    alloc: Global,
    earlier: &[TypeResolution],
    operands: &[Handle<tag::Expression>],
) -> Result<Option<TypeResolution>, AllocError>
    ensures { IfOk result (λ ty. ty ≡ option_and_then (slice_get earlier.now) (first_of operands.now)) }
{
    let Some(handle) = operands.first() else {
        return Ok(None);
    };
    match earlier.get(handle.index()) {
        Some(ty) => Ok(Some(ty.clone(alloc)?)),
        None => Ok(None),
    }
}
