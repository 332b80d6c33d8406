//! The types of expressions that name something which has one.

ghost use Rattle.std.specs.Prelude.{◌≡◌};
ghost use Rattle.std.specs.Option.{option_copied};
ghost use Rattle.layer_expressions.specs.Named.{global_type, callee_type, named_type};

use crate::rules::Rule;
use ir_arena::handle::Handle;
use ir_arena::tag;
use ir_leaves::scalars::{Scalar, VectorSize};
use ir_module::expressions::Expression;
use ir_module::functions::{Function, FunctionArgument, LocalVariable};
use ir_module::module::{GlobalVariable, Module};
use ir_types::types::{AddressSpace, TypeInner};
use ir_types::typifier::TypeResolution;
use layer_shapes::resolutions::{pointer_to, type_at};

/// What a global stands for: itself in Handle, elsewhere a pointer to it.
fn global_type(count: usize, global: GlobalVariable) -> Option<TypeResolution>
    ensures { result ≡ global_type count global.ty global.space }
{
    match global.space {
        AddressSpace::Handle => type_at(count, global.ty),
        AddressSpace::Function
        | AddressSpace::Private
        | AddressSpace::WorkGroup
        | AddressSpace::Uniform
        | AddressSpace::Storage { .. }
        | AddressSpace::Immediate
        | AddressSpace::TaskPayload
        | AddressSpace::RayPayload
        | AddressSpace::IncomingRayPayload => pointer_to(count, global.ty, global.space),
    }
}

/// The type of a function's result, or the rule that is broken.
pub(crate) fn callee_type(count: usize, callee: Option<&Function>) -> Result<TypeResolution, Rule>
    ensures { result ≡ callee_type count (option_copied callee.entry) }
{
    let Some(callee) = callee else {
        return Err(Rule::Named);
    };
    let Some(declared) = callee.result else {
        return Err(Rule::Result);
    };
    match type_at(count, declared.ty) {
        Some(ty) => Ok(ty),
        None => Err(Rule::Named),
    }
}

/// The type of an expression that names something; `None` where it isn't there, and of all other expressions.
pub fn named_type(
    module: &Module,
    arguments: &[FunctionArgument],
    locals: &[LocalVariable],
    expression: &Expression,
) -> Option<TypeResolution>
    ensures { result ≡ named_type «module».now arguments.now locals.now expression.now }
{
    let count = module.types.len();
    match expression {
        Expression::Literal(literal) => Some(TypeResolution::Value(TypeInner::Scalar(
            literal.scalar,
        ))),
        Expression::Constant(handle) => {
            let constant = module.constants.as_slice().get(handle.index())?;
            type_at(count, constant.ty)
        }
        Expression::Override(handle) => {
            let constant = module.overrides.as_slice().get(handle.index())?;
            type_at(count, constant.ty)
        }
        Expression::ZeroValue(ty)
        | Expression::Compose { ty, .. }
        | Expression::AtomicResult { ty, .. }
        | Expression::WorkGroupUniformLoadResult { ty }
        | Expression::SubgroupOperationResult { ty } => type_at(count, *ty),
        Expression::FunctionArgument(index) => {
            let argument = arguments.get(*index as usize)?;
            type_at(count, argument.ty)
        }
        Expression::GlobalVariable(handle) => {
            let global = module.global_variables.as_slice().get(handle.index())?;
            global_type(count, *global)
        }
        Expression::LocalVariable(handle) => {
            let local = locals.get(handle.index())?;
            pointer_to(count, local.ty, AddressSpace::Function)
        }
        Expression::RayQueryProceedResult => Some(TypeResolution::Value(TypeInner::Scalar(
            Scalar::BOOL,
        ))),
        Expression::SubgroupBallotResult => Some(TypeResolution::Value(TypeInner::Vector {
            size: VectorSize::Quad,
            scalar: Scalar::U32,
        })),
        Expression::Access { .. }
        | Expression::AccessIndex { .. }
        | Expression::Load { .. }
        | Expression::CallResult(_)
        | Expression::Splat { .. }
        | Expression::Swizzle { .. }
        | Expression::ImageSample { .. }
        | Expression::ImageLoad { .. }
        | Expression::ImageQuery { .. }
        | Expression::Unary { .. }
        | Expression::Binary { .. }
        | Expression::Select { .. }
        | Expression::Derivative { .. }
        | Expression::Relational { .. }
        | Expression::Math { .. }
        | Expression::As { .. }
        | Expression::ArrayLength { .. }
        | Expression::RayQueryGetIntersection { .. }
        | Expression::RayQueryVertexPositions { .. }
        | Expression::CooperativeLoad { .. }
        | Expression::CooperativeMultiplyAdd { .. } => None,
    }
}
