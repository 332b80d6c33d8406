//! The type of each expression of a function, or of a module's global expressions.

ghost use Rattle.std.specs.Prelude.{◌≡◌, IfOk};
ghost use Rattle.std.specs.Option.{option_copied};
ghost use Rattle.layer_expressions.specs.ComputedTypes.{computed, rule_of, computed_type, shape_value, load_value, named, plain_type, is_computed, is_computing, type_of, types_of, global_types};

use crate::access::{access_index_type, access_type, loaded};
use crate::loading::{load_type, query_type};
use crate::math::math_of;
use crate::named::{callee_type, named_type};
use crate::operands::{Arguments, arguments_of, type_of_operand};
use crate::operators::{
    binary_of, cast_of, derived, related, selected, splat_of, swizzled, unary_of,
};
use crate::others::{cooperative_load, length_type, multiply_add};
use crate::rules::Rule;
use crate::sampling::sample_type;
use ir_arena::arena::Arena;
use ir_arena::handle::Handle;
use ir_arena::sequence::Sequence;
use ir_arena::tag;
use ir_module::expressions::Expression;
use ir_module::functions::{FunctionArgument, LocalVariable};
use ir_module::module::Module;
use ir_module::operands::listed_operands;
use ir_types::types::{Type, TypeInner};
use ir_types::typifier::TypeResolution;
use layer_forms::{
    BinaryOperator, Cast, Derivative, MathFunction, RelationalFunction, Swizzle, UnaryOperator,
    size_from,
};
use layer_shapes::shapes::Shape;
use std::alloc::{AllocError, Global};

/// An expression that has no type, and the rule that it breaks.
#[derive(Clone, Copy)]
pub struct Untyped {
    pub handle: Handle<tag::Expression>,
    pub rule: Rule,
}

/// What an expression of a kind gives whose operands have shapes.
fn computed(expression: &Expression, arguments: Arguments) -> Result<Option<Shape>, Rule>
    ensures { result ≡ computed expression.now arguments }
{
    match expression {
        Expression::Splat { detail, .. } => match size_from(*detail) {
            Some(size) => Ok(splat_of(size, arguments)),
            None => Err(Rule::Detail),
        },
        Expression::Swizzle { detail, .. } => match Swizzle::from_detail(*detail) {
            Some(swizzle) => Ok(swizzled(swizzle, arguments)),
            None => Err(Rule::Detail),
        },
        Expression::Unary { detail, .. } => match UnaryOperator::from_detail(*detail) {
            Some(operator) => Ok(unary_of(operator, arguments)),
            None => Err(Rule::Detail),
        },
        Expression::Binary { detail, .. } => match BinaryOperator::from_detail(*detail) {
            Some(operator) => Ok(binary_of(operator, arguments)),
            None => Err(Rule::Detail),
        },
        Expression::Select { .. } => Ok(selected(arguments)),
        Expression::Derivative { detail, .. } => match Derivative::from_detail(*detail) {
            Some(_) => Ok(derived(arguments)),
            None => Err(Rule::Detail),
        },
        Expression::Relational { detail, .. } => match RelationalFunction::from_detail(*detail) {
            Some(function) => Ok(related(function, arguments)),
            None => Err(Rule::Detail),
        },
        Expression::Math { detail, .. } => match MathFunction::from_detail(*detail) {
            Some(function) => Ok(math_of(function.class(), arguments)),
            None => Err(Rule::Detail),
        },
        Expression::As { detail, .. } => match Cast::from_detail(*detail) {
            Some(cast) => Ok(cast_of(cast, arguments)),
            None => Err(Rule::Detail),
        },
        Expression::Literal(_)
        | Expression::Constant(_)
        | Expression::Override(_)
        | Expression::ZeroValue(_)
        | Expression::Compose { .. }
        | Expression::Access { .. }
        | Expression::AccessIndex { .. }
        | Expression::FunctionArgument(_)
        | Expression::GlobalVariable(_)
        | Expression::LocalVariable(_)
        | Expression::Load { .. }
        | Expression::CallResult(_)
        | Expression::AtomicResult { .. }
        | Expression::WorkGroupUniformLoadResult { .. }
        | Expression::RayQueryProceedResult
        | Expression::SubgroupBallotResult
        | Expression::SubgroupOperationResult { .. }
        | Expression::ImageSample { .. }
        | Expression::ImageLoad { .. }
        | Expression::ImageQuery { .. }
        | Expression::ArrayLength { .. }
        | Expression::RayQueryGetIntersection { .. }
        | Expression::RayQueryVertexPositions { .. }
        | Expression::CooperativeLoad { .. }
        | Expression::CooperativeMultiplyAdd { .. } => Ok(None),
    }
}

/// The rule of each kind of expression: `Named` of those that don't compute with the shapes of their operands.
fn rule_of(expression: &Expression) -> Rule
    ensures rule { result ≡ rule_of expression.now }
    ensures computes { is_computing result ≡ is_computed expression.now }
{
    match expression {
        Expression::Splat { .. } => Rule::Splat,
        Expression::Swizzle { .. } => Rule::Swizzle,
        Expression::Unary { .. } => Rule::Unary,
        Expression::Binary { .. } => Rule::Binary,
        Expression::Select { .. } => Rule::Select,
        Expression::Derivative { .. } => Rule::Derivative,
        Expression::Relational { .. } => Rule::Relational,
        Expression::Math { .. } => Rule::Math,
        Expression::As { .. } => Rule::As,
        Expression::Literal(_)
        | Expression::Constant(_)
        | Expression::Override(_)
        | Expression::ZeroValue(_)
        | Expression::Compose { .. }
        | Expression::Access { .. }
        | Expression::AccessIndex { .. }
        | Expression::FunctionArgument(_)
        | Expression::GlobalVariable(_)
        | Expression::LocalVariable(_)
        | Expression::Load { .. }
        | Expression::CallResult(_)
        | Expression::AtomicResult { .. }
        | Expression::WorkGroupUniformLoadResult { .. }
        | Expression::RayQueryProceedResult
        | Expression::SubgroupBallotResult
        | Expression::SubgroupOperationResult { .. }
        | Expression::ImageSample { .. }
        | Expression::ImageLoad { .. }
        | Expression::ImageQuery { .. }
        | Expression::ArrayLength { .. }
        | Expression::RayQueryGetIntersection { .. }
        | Expression::RayQueryVertexPositions { .. }
        | Expression::CooperativeLoad { .. }
        | Expression::CooperativeMultiplyAdd { .. } => Rule::Named,
    }
}

/// The type that an expression computes from operands of these shapes.
fn computed_type(
    expression: &Expression,
    arguments: Option<Arguments>,
) -> Result<TypeResolution, Rule>
    ensures { result ≡ computed_type expression.now arguments }
{
    let Some(arguments) = arguments else {
        return Err(rule_of(expression));
    };
    match computed(expression, arguments) {
        Ok(Some(shape)) => Ok(shape.value()),
        Ok(None) => Err(rule_of(expression)),
        Err(rule) => Err(rule),
    }
}

/// The type of a value of a shape, or the rule that is broken.
fn value_of(shape: Result<Shape, Rule>) -> Result<TypeResolution, Rule>
    ensures { result ≡ shape_value shape }
{
    match shape {
        Ok(shape) => Ok(shape.value()),
        Err(rule) => Err(rule),
    }
}

/// The type of what is loaded.
fn load_value(types: &[Type], pointer: Option<&TypeInner>) -> Result<TypeResolution, Rule>
    ensures { result ≡ load_value types.now (option_copied pointer.entry) }
{
    let Some(pointer) = pointer else {
        return Err(Rule::Load);
    };
    match loaded(types, pointer) {
        Some(ty) => Ok(ty),
        None => Err(Rule::Load),
    }
}

/// The type of an expression that names something, or the rule that is broken.
fn named(
    module: &Module,
    arguments: &[FunctionArgument],
    locals: &[LocalVariable],
    expression: &Expression,
) -> Result<TypeResolution, Rule>
    ensures { result ≡ named «module».now arguments.now locals.now expression.now }
{
    match named_type(module, arguments, locals, expression) {
        Some(ty) => Ok(ty),
        None => Err(Rule::Named),
    }
}

/// The type of an expression whose operands are read by shape, or that names something.
fn plain_type(
    module: &Module,
    arguments: &[FunctionArgument],
    locals: &[LocalVariable],
    earlier: &[TypeResolution],
    expression: &Expression,
) -> Result<TypeResolution, Rule>
    ensures { result ≡ plain_type «module».now arguments.now locals.now earlier.now expression.now }
{
    if is_computed(expression) {
        let operands = listed_operands(expression);
        computed_type(
            expression,
            arguments_of(module.types.as_slice(), earlier, operands),
        )
    } else {
        named(module, arguments, locals, expression)
    }
}

/// Whether an expression computes with the shapes of its operands.
fn is_computed(expression: &Expression) -> bool
    ensures { result ≡ is_computed expression.now }
{
    match rule_of(expression) {
        Rule::Named => false,
        _ => true,
    }
}

/// The type of an expression, of those of the expressions before it; or the rule that it breaks.
fn type_of(
    module: &Module,
    arguments: &[FunctionArgument],
    locals: &[LocalVariable],
    expressions: &[Expression],
    earlier: &[TypeResolution],
    expression: &Expression,
) -> Result<TypeResolution, Rule>
    ensures { result ≡ type_of «module».now arguments.now locals.now expressions.now earlier.now expression.now }
{
    let types = module.types.as_slice();
    match expression {
        Expression::Access { base, index } => access_type(
            types,
            type_of_operand(types, earlier, *base),
            type_of_operand(types, earlier, *index),
        ),
        Expression::AccessIndex { base, index } => {
            access_index_type(types, type_of_operand(types, earlier, *base), *index)
        }
        Expression::Load { pointer } => load_value(
            types,
            type_of_operand(types, earlier, *pointer),
        ),
        Expression::CallResult(function) => callee_type(
            types.len(),
            module.functions.as_slice().get(function.index()),
        ),
        Expression::ImageSample { operands, detail } => {
            value_of(sample_type(types, expressions, earlier, operands.as_slice(), *detail))
        }
        Expression::ImageLoad { operands, detail } => {
            value_of(load_type(types, expressions, earlier, operands.as_slice(), *detail))
        }
        Expression::ImageQuery { operands, detail } => {
            value_of(query_type(types, expressions, earlier, operands.as_slice(), *detail))
        }
        Expression::ArrayLength { operands, .. } => length_type(
            types,
            earlier,
            operands.as_slice(),
        ),
        Expression::RayQueryGetIntersection { .. } | Expression::RayQueryVertexPositions { .. } => {
            Err(Rule::RayQuery)
        }
        Expression::CooperativeLoad { operands, detail } => {
            cooperative_load(types, earlier, operands.as_slice(), *detail)
        }
        Expression::CooperativeMultiplyAdd { operands, .. } => {
            multiply_add(types, earlier, operands.as_slice())
        }
        Expression::Literal(_)
        | Expression::Constant(_)
        | Expression::Override(_)
        | Expression::ZeroValue(_)
        | Expression::Compose { .. }
        | Expression::FunctionArgument(_)
        | Expression::GlobalVariable(_)
        | Expression::LocalVariable(_)
        | Expression::AtomicResult { .. }
        | Expression::WorkGroupUniformLoadResult { .. }
        | Expression::RayQueryProceedResult
        | Expression::SubgroupBallotResult
        | Expression::SubgroupOperationResult { .. }
        | Expression::Splat { .. }
        | Expression::Swizzle { .. }
        | Expression::Unary { .. }
        | Expression::Binary { .. }
        | Expression::Select { .. }
        | Expression::Derivative { .. }
        | Expression::Relational { .. }
        | Expression::Math { .. }
        | Expression::As { .. } => { plain_type(module, arguments, locals, earlier, expression) }
    }
}

/// The type of each of these expressions of a function of these arguments and locals, or the first that has none.
///
/// The inner Err is that first one, with the rule that it breaks; `rule.number()` is the n of `Lower(n)`. The outer Err is out of
/// memory.
#[tactic(auto, unfolding(crate::specs::ComputedTypes::types_from))]
pub fn types_of(
    alloc: Global,
    module: &Module,
    arguments: &[FunctionArgument],
    locals: &[LocalVariable],
    expressions: &Arena<Expression>,
) -> Result<Result<Sequence<TypeResolution>, Untyped>, AllocError>
    ensures { IfOk result (λ types. types ≡ types_of «module».now arguments.now locals.now expressions.now) }
{
    let mut types = Vec::with_capacity(alloc, expressions.len())?;
    let count = expressions.len() as u32;
    for index in 0..count {
        let handle = Handle::new(index);
        match type_of(
            module,
            arguments,
            locals,
            expressions.as_slice(),
            types.as_slice(),
            &expressions[handle],
        ) {
            Ok(ty) => types.push(ty)?,
            Err(rule) => return Ok(Err(Untyped { handle, rule })),
        }
    }
    Ok(Ok(Sequence::from(types)))
}

/// The type of each global expression of a module, by its handle, or the first that has none. Errors are those of [`types_of`].
pub fn global_types(
    alloc: Global,
    module: &Module,
) -> Result<Result<Sequence<TypeResolution>, Untyped>, AllocError>
    ensures { IfOk result (λ types. types ≡ global_types «module».now) }
{
    types_of(alloc, module, &[], &[], &module.global_expressions)
}
