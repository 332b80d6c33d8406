//! The check list of TraceRay, and what a ray trace leaves.

ghost use Rattle.std.specs.Prelude.{◌≡◌, true};
ghost use Rattle.std.specs.Option.{option_copied, option_or};
ghost use Rattle.naga_runs.specs.Positions.{StatementNode};
ghost use Rattle.check_scope.specs.walk.Findings.{RefusesFaultsAlone};
ghost use Rattle.ir_facts.specs.Answers.{Answers, Finds, FirstOf};
ghost use Rattle.check_scope.specs.BodyTrees.{tree_of};
ghost use Rattle.check_resources.specs.RayTrace.{is_payload_space, is_global, trace_ray_points};
ghost use Rattle.check_scope.specs.walk.Place.{place_at};
ghost use Rattle.check_scope.specs.walk.SeenContext.{context_of};
ghost use Rattle.check_resources.specs.Traces.{payload_type_at, lacks_vertex_return, span_where, vertex_return_by, with_trace};
ghost use Rattle.check_scope.specs.ExpressionTypes.{type_at};
ghost use Rattle.check_scope.specs.walk.Table.{known};

use crate::ray_query::{check_descriptor, structure_flag};
use check_scope::context::BlockContext;
use check_scope::refuse::{answer, check_use};
use check_scope::table::ScopeColumn;
use check_scope::trace::{TraceRayVertexReturnState, TraceState};
use ir_arena::handle::Handle;
use ir_arena::span::Span;
use ir_arena::{Refused, tag};
use ir_errors::function::FunctionError;
use ir_module::expressions::Expression;
use ir_statements::operations::RayPipelineFunction;
use ir_statements::statements::{Located, Statement};
use ir_types::types::{AddressSpace, TypeInner};

/// A ray that is traced: its acceleration structure, its descriptor and its payload.
#[derive(Clone, Copy)]
pub struct Ray {
    pub structure: Handle<tag::Expression>,
    pub descriptor: Handle<tag::Expression>,
    pub payload: Handle<tag::Expression>,
}

/// TraceRay: its acceleration structure, its payload and then its descriptor.
pub fn check_trace_ray(
    scope: &ScopeColumn,
    context: &BlockContext,
    so_far: &Option<Handle<tag::Type>>,
    ray: Ray,
    span: Span,
) -> Result<(), Refused<FunctionError>>
    ensures fault { Answers (FirstOf (trace_ray_points (context_of context.now) so_far.now (place_at (known scope.now))
        ray.structure ray.descriptor ray.payload)) result }
    ensures refused { RefusesFaultsAlone
        (trace_ray_points (context_of context.now) so_far.now (place_at (known scope.now)) ray.structure ray.descriptor
        ray.payload)
        result }
{
    let checked = check_trace_ray_points(scope, context, so_far, ray);
    answer(scope.allocator(), checked, span)
}

/// All that is checked of a ray that is traced.
fn check_trace_ray_points(
    scope: &ScopeColumn,
    context: &BlockContext,
    so_far: &Option<Handle<tag::Type>>,
    ray: Ray,
) -> Result<(), FunctionError>
    ensures { Finds (FirstOf (trace_ray_points (context_of context.now) so_far.now (place_at (known scope.now))
        ray.structure ray.descriptor ray.payload)) result }
{
    check_use(scope, ray.structure)?;
    if structure_flag(context, ray.structure).is_none() {
        return Err(FunctionError::InvalidAccelerationStructure(ray.structure));
    }
    check_use(scope, ray.payload)?;
    let Some(TypeInner::Pointer { base, space }) = context.type_inner(ray.payload) else {
        return Err(FunctionError::InvalidPayloadType);
    };
    if !is_payload_space(*space) {
        return Err(FunctionError::InvalidPayloadAddressSpace(*space));
    }
    if !is_global(context.expression(ray.payload)) {
        return Err(FunctionError::PayloadPointerNotGlobal);
    }
    if let Some(first) = so_far {
        if *first != *base {
            return Err(FunctionError::MismatchedPayloadType(*base, *first));
        }
    }
    check_descriptor(scope, context, ray.descriptor)
}

/// Whether payloads lie in a space.
fn is_payload_space(space: AddressSpace) -> bool
    ensures { result ≡ is_payload_space space }
{
    match space {
        AddressSpace::RayPayload | AddressSpace::IncomingRayPayload => true,
        AddressSpace::Function
        | AddressSpace::Private
        | AddressSpace::WorkGroup
        | AddressSpace::Uniform
        | AddressSpace::Storage { .. }
        | AddressSpace::Handle
        | AddressSpace::Immediate
        | AddressSpace::TaskPayload => false,
    }
}

/// Whether an expression is a global.
fn is_global(expression: Option<&Expression>) -> bool
    ensures { result ≡ is_global (option_copied expression.entry) }
{
    matches!(expression, Some(Expression::GlobalVariable(_)))
}

/// What ray traces leave after a statement: only a ray trace changes it.
pub fn advance_trace(trace: &mut TraceState, context: &BlockContext, located: &Located)
    ensures { trace.new
        ≡ with_trace (context_of context.now) trace.old (StatementNode (tree_of (context_of context.now) located.now)) }
{
    match &located.statement {
        Statement::RayPipelineFunction(
            RayPipelineFunction::TraceRay {
                acceleration_structure,
                payload,
                ..
            },
        ) => {
            *trace = TraceState {
                payload: payload_behind(context, &trace.payload, *payload),
                vertex_return: vertex_return_behind(
                    context,
                    trace.vertex_return,
                    *acceleration_structure,
                    located.span,
                ),
            };
        }
        Statement::Emit(_)
        | Statement::Block(_)
        | Statement::If { .. }
        | Statement::Switch { .. }
        | Statement::Loop { .. }
        | Statement::Break
        | Statement::Continue
        | Statement::Return { .. }
        | Statement::Kill
        | Statement::ControlBarrier(_)
        | Statement::MemoryBarrier(_)
        | Statement::Store { .. }
        | Statement::ImageStore { .. }
        | Statement::Atomic { .. }
        | Statement::ImageAtomic { .. }
        | Statement::WorkGroupUniformLoad { .. }
        | Statement::Call { .. }
        | Statement::RayQuery { .. }
        | Statement::SubgroupBallot { .. }
        | Statement::SubgroupCollectiveOperation { .. }
        | Statement::SubgroupGather { .. }
        | Statement::CooperativeStore { .. } => {}
    }
}

/// The payload type after a ray trace: the one so far, if there was one, else its own.
fn payload_behind(
    context: &BlockContext,
    so_far: &Option<Handle<tag::Type>>,
    payload: Handle<tag::Expression>,
) -> Option<Handle<tag::Type>>
    ensures { result ≡ option_or so_far.now (payload_type_at (context_of context.now) payload) }
{
    match so_far {
        Some(first) => Some(*first),
        None => payload_type(context, payload),
    }
}

/// The type that a payload points to.
fn payload_type(
    context: &BlockContext,
    payload: Handle<tag::Expression>,
) -> Option<Handle<tag::Type>>
    ensures { result ≡ payload_type_at (context_of context.now) payload }
{
    match context.type_inner(payload) {
        Some(TypeInner::Pointer { base, .. }) => Some(*base),
        _ => None,
    }
}

/// How vertices are returned after a ray trace: where it stands, if its structure lacks the flag.
fn vertex_return_behind(
    context: &BlockContext,
    so_far: TraceRayVertexReturnState,
    structure: Handle<tag::Expression>,
    span: Span,
) -> TraceRayVertexReturnState
    ensures { result
        ≡ vertex_return_by so_far (span_where (lacks_vertex_return (type_at (context_of context.now) structure)) span) true }
{
    if lacks_vertex_return(context, structure) {
        return TraceRayVertexReturnState::NoVertexReturn(span);
    }
    match so_far {
        TraceRayVertexReturnState::NoTraceRays => TraceRayVertexReturnState::VertexReturn,
        _ => so_far,
    }
}

/// Whether an acceleration structure returns no vertices.
fn lacks_vertex_return(context: &BlockContext, structure: Handle<tag::Expression>) -> bool
    ensures { result ≡ lacks_vertex_return (type_at (context_of context.now) structure) }
{
    match context.type_inner(structure) {
        Some(TypeInner::AccelerationStructure { vertex_return }) => !*vertex_return,
        _ => false,
    }
}
