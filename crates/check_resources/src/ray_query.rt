//! The check list of RayQuery.

ghost use Rattle.std.specs.Prelude.{◌≡◌, OnOk};
ghost use Rattle.std.specs.Option.{option_copied};
ghost use Rattle.ir_facts.specs.FitsBody.{QueryFits};
ghost use Rattle.ir_statements.specs.View.{query_acts};
ghost use Rattle.naga_runs.specs.PutsAndUses.{puts_of};
ghost use Rattle.check_scope.specs.walk.Findings.{RefusesFaultsAlone};
ghost use Rattle.ir_facts.specs.Answers.{Answers, Finds, FirstOf};
ghost use Rattle.check_resources.specs.RayQuery.{local_type_at, query_flag_of, structure_flag_at, descriptor_type, descriptor_points, is_float_scalar, query_function_points, ray_query_points};
ghost use Rattle.check_scope.specs.walk.Place.{place_at};
ghost use Rattle.check_scope.specs.walk.SeenContext.{context_of};
ghost use Rattle.ir_types.specs.TypeTests.{both_are, is_same_inner};
ghost use Rattle.check_scope.specs.ExpressionTypes.{type_at};
ghost use Rattle.check_scope.specs.walk.Table.{HasPut, count, known};

use check_scope::context::BlockContext;
use check_scope::refuse::{answer, check_put, check_use};
use check_scope::table::ScopeColumn;
use check_scope::types::are_same_inners;
use ir_arena::handle::Handle;
use ir_arena::span::Span;
use ir_arena::{Refused, tag};
use ir_errors::function::FunctionError;
use ir_leaves::scalars::ScalarKind;
use ir_module::expressions::Expression;
use ir_statements::operations::RayQueryFunction;
use ir_types::type_methods::inner_at;
use ir_types::types::TypeInner;

/// RayQuery: its query, a local, and what is done with it. The result of a Proceed is in scope afterwards.
pub fn validate_ray_query(
    scope: &mut ScopeColumn,
    context: &BlockContext,
    query: Handle<tag::Expression>,
    fun: &RayQueryFunction,
    span: Span,
) -> Result<(), Refused<FunctionError>>
    requires { QueryFits (count scope.old) fun.now }
    ensures fault { Answers (FirstOf (ray_query_points (context_of context.now) (place_at (known scope.old)) query
        fun.now)) result }
    ensures refused { RefusesFaultsAlone
        (ray_query_points (context_of context.now) (place_at (known scope.old)) query fun.now) result }
    ensures scope { OnOk result (HasPut scope.old scope.new (puts_of (query_acts fun.now))) }
{
    let alloc = scope.allocator();
    let checked = check_ray_query(scope, context, query, fun);
    answer(alloc, checked, span)?;
    if let RayQueryFunction::Proceed { result } = fun {
        scope.put(*result);
    }
    Ok(())
}

/// All that is checked of a ray query. The result of a Proceed stays out of scope.
fn check_ray_query(
    scope: &ScopeColumn,
    context: &BlockContext,
    query: Handle<tag::Expression>,
    fun: &RayQueryFunction,
) -> Result<(), FunctionError>
    ensures { Finds (FirstOf (ray_query_points (context_of context.now) (place_at (known scope.now)) query
        fun.now)) result }
{
    let Some(ty) = local_type_at(context, query) else {
        return Err(FunctionError::InvalidRayQueryExpression(query));
    };
    let Some(vertex_return) = query_flag_of(inner_at(context.program.types.as_slice(), ty)) else {
        return Err(FunctionError::InvalidRayQueryType(ty));
    };
    check_query_function(scope, context, query, vertex_return, fun)
}

/// The type that the local is declared with which an expression is.
fn local_type_at(
    context: &BlockContext,
    handle: Handle<tag::Expression>,
) -> Option<Handle<tag::Type>>
    ensures { result ≡ local_type_at (context_of context.now) handle }
{
    match context.expression(handle) {
        Some(Expression::LocalVariable(variable)) => match context
            .fun
            .local_variables
            .as_slice()
            .get(variable.index())
        {
            Some(local) => Some(local.ty),
            None => None,
        },
        _ => None,
    }
}

/// Whether a ray query returns vertices.
fn query_flag_of(inner: Option<&TypeInner>) -> Option<bool>
    ensures { result ≡ query_flag_of (option_copied inner.entry) }
{
    match inner {
        Some(TypeInner::RayQuery { vertex_return }) => Some(*vertex_return),
        _ => None,
    }
}

/// What is done with a query. One begins with an acceleration structure, which has the flag where the query has it, and
/// a descriptor.
fn check_query_function(
    scope: &ScopeColumn,
    context: &BlockContext,
    query: Handle<tag::Expression>,
    vertex_return: bool,
    fun: &RayQueryFunction,
) -> Result<(), FunctionError>
    ensures { Finds (FirstOf (query_function_points (context_of context.now) (place_at (known scope.now)) query
        vertex_return fun.now)) result }
{
    match fun {
        RayQueryFunction::Initialize {
            acceleration_structure,
            descriptor,
        } => {
            let structure = *acceleration_structure;
            check_use(scope, structure)?;
            let Some(returns) = structure_flag(context, structure) else {
                return Err(FunctionError::InvalidAccelerationStructure(structure));
            };
            if vertex_return && !returns {
                return Err(FunctionError::MissingAccelerationStructureVertexReturn(
                    structure, query,
                ));
            }
            check_descriptor(scope, context, *descriptor)
        }
        RayQueryFunction::Proceed { result } => check_put(scope, *result),
        RayQueryFunction::GenerateIntersection { hit_t } => {
            check_use(scope, *hit_t)?;
            if !is_float_scalar(context.type_inner(*hit_t)) {
                return Err(FunctionError::InvalidHitDistanceType(*hit_t));
            }
            Ok(())
        }
        RayQueryFunction::ConfirmIntersection | RayQueryFunction::Terminate => Ok(()),
    }
}

/// Whether an acceleration structure returns vertices.
pub(crate) fn structure_flag(
    context: &BlockContext,
    structure: Handle<tag::Expression>,
) -> Option<bool>
    ensures { result ≡ structure_flag_at (context_of context.now) structure }
{
    match context.type_inner(structure) {
        Some(TypeInner::AccelerationStructure { vertex_return }) => Some(*vertex_return),
        _ => None,
    }
}

/// The descriptor of a ray: put by every run, and of the module's type of ray descriptors.
pub(crate) fn check_descriptor(
    scope: &ScopeColumn,
    context: &BlockContext,
    descriptor: Handle<tag::Expression>,
) -> Result<(), FunctionError>
    ensures { Finds (FirstOf (descriptor_points (context_of context.now) (place_at (known scope.now))
        descriptor)) result }
{
    check_use(scope, descriptor)?;
    if !is_descriptor(context, descriptor) {
        return Err(FunctionError::InvalidRayDescriptor(descriptor));
    }
    Ok(())
}

/// Whether an expression is of the module's type of ray descriptors.
fn is_descriptor(context: &BlockContext, descriptor: Handle<tag::Expression>) -> bool
    ensures { result
        ≡ both_are is_same_inner (type_at (context_of context.now) descriptor) (descriptor_type (context_of context.now)) }
{
    are_same_inners(context.type_inner(descriptor), descriptor_type(context))
}

/// The module's type of ray descriptors, if it has one.
fn descriptor_type<'a>(context: &BlockContext<'a>) -> Option<&'a TypeInner>
    ensures { option_copied result ≡ descriptor_type (context_of context.now) }
{
    match context.program.special_types.ray_desc {
        Some(ty) => inner_at(context.program.types.as_slice(), ty),
        None => None,
    }
}

/// Whether a type is a float of any width, and no vector.
fn is_float_scalar(inner: Option<&TypeInner>) -> bool
    ensures { result ≡ is_float_scalar (option_copied inner.entry) }
{
    match inner {
        Some(TypeInner::Scalar(scalar)) => matches!(scalar.kind, ScalarKind::Float),
        _ => false,
    }
}
