//! The check list of a built-in.

ghost use Rattle.std.specs.Prelude.{◌≡◌, ◌<◌, ◌||◌, not, None, length, if◌then◌else◌};
ghost use Rattle.ir_flags.specs.Capabilities.{MESH_SHADER, has_capability};
ghost use Rattle.ir_types.specs.Types.{NamesTypesBelow, NameEachOther, inner_at};
ghost use Rattle.ir_facts.specs.Answers.{Answers, FirstOf};
ghost use Rattle.check_varyings.specs.Varyings.{built_in_points, has_built_in_type, has_one_dimension, has_required, is_distances, is_of_one_dimension, rule_points, seen_in};

use crate::context::VaryingContext;
use crate::rule::{BuiltInRule, BuiltInType, builtin_rule};
use crate::varying::{VaryingPlace, VaryingState, canonical};
use ir_arena::handle::Handle;
use ir_arena::span::Refusal;
use ir_arena::tag;
use ir_errors::interface::VaryingError;
use ir_flags::capabilities::Capabilities;
use ir_leaves::built_in::BuiltIn;
use ir_leaves::scalars::Scalar;
use ir_types::types::{ArraySize, Type, TypeInner};
use ir_types::unique_arena::UniqueArena;

/// What is bound to a built-in: it isn't there, the target has what it needs, it is visible at the place, and of its type.
pub(crate) fn check_built_in(
    context: &VaryingContext,
    state: &VaryingState,
    ty: Handle<tag::Type>,
    built_in: BuiltIn,
) -> Result<(), Refusal<VaryingError>>
    requires ty { ty < length context.now.types.now }
    requires types { NameEachOther context.now.types.now }
    ensures { Answers
        (FirstOf (built_in_points context.now.place.now context.now.types.now (seen_in state.now)
        (inner_at context.now.types.now ty) built_in))
        result }
{
    if state.has_built_in(canonical(built_in)) {
        return Err(context.refusal(VaryingError::DuplicateBuiltIn(built_in)));
    }
    let rule = builtin_rule(built_in, context.place);
    let checked = check_rule(context, context.inner(ty), built_in, &rule);
    drop(rule);
    checked
}

/// What the rule of a built-in asks of a type that is bound to it.
fn check_rule(
    context: &VaryingContext,
    inner: &TypeInner,
    built_in: BuiltIn,
    rule: &BuiltInRule,
) -> Result<(), Refusal<VaryingError>>
    requires { NamesTypesBelow (length context.now.types.now) inner.now }
    ensures { Answers
        (FirstOf (rule_points context.now.place.now context.now.types.now inner.now built_in rule.now)) result }
{
    let place = context.place;
    if let Some(required) = missing(place.capabilities, rule.required) {
        return Err(context.refusal(VaryingError::UnsupportedCapability(required)));
    }
    if !suits_work_group(place, built_in) {
        return Err(context.refusal(VaryingError::InvalidMultiDimensionalSubgroupBuiltIn));
    }
    if !has_mesh_shader(place, rule.mesh_shader) {
        let fault = VaryingError::UnsupportedCapability(Capabilities::MESH_SHADER);
        return Err(context.refusal(fault));
    }
    if !rule.visible {
        return Err(context.refusal(VaryingError::InvalidBuiltInStage(built_in)));
    }
    if !has_type(context.types, inner, &rule.ty) {
        let fault = VaryingError::InvalidBuiltInType(built_in, inner.clone(context.alloc)?);
        return Err(context.refusal(fault));
    }
    Ok(())
}

/// The capability that is required, where the target lacks it.
pub(crate) fn missing(
    capabilities: Capabilities,
    required: Option<Capabilities>,
) -> Option<Capabilities>
    ensures { result ≡ (if has_required capabilities required then None else required) }
{
    match required {
        Some(required) => if capabilities.contains(required) {
            None
        } else {
            Some(required)
        },
        None => None,
    }
}

/// Whether the target has mesh shaders, or they aren't asked for.
pub(crate) fn has_mesh_shader(place: &VaryingPlace, wanted: bool) -> bool
    ensures { result ≡ (not wanted || has_capability place.now.capabilities MESH_SHADER) }
{
    !wanted || place.capabilities.contains(Capabilities::MESH_SHADER)
}

/// Whether the work group has one dimension, or the built-in is there for others too.
pub(crate) fn suits_work_group(place: &VaryingPlace, built_in: BuiltIn) -> bool
    ensures { result ≡ (not (is_of_one_dimension built_in) || has_one_dimension place.now) }
{
    let [_, second, third] = place.workgroup_size;
    !is_of_one_dimension(built_in) || second <= 1 && third <= 1
}

/// Whether the built-in is for work groups of one dimension alone.
fn is_of_one_dimension(built_in: BuiltIn) -> bool
    ensures { result ≡ is_of_one_dimension built_in }
{
    match built_in {
        BuiltIn::SubgroupId | BuiltIn::SubgroupInvocationId => true,
        BuiltIn::BaseInstance
        | BuiltIn::BaseVertex
        | BuiltIn::VertexIndex
        | BuiltIn::InstanceIndex
        | BuiltIn::DrawIndex
        | BuiltIn::ClipDistances
        | BuiltIn::CullDistance
        | BuiltIn::PointSize
        | BuiltIn::PointCoord
        | BuiltIn::Position { .. }
        | BuiltIn::ViewIndex
        | BuiltIn::FragDepth
        | BuiltIn::FrontFacing
        | BuiltIn::PrimitiveIndex
        | BuiltIn::Barycentric { .. }
        | BuiltIn::SampleIndex
        | BuiltIn::SampleMask
        | BuiltIn::LocalInvocationIndex
        | BuiltIn::GlobalInvocationId
        | BuiltIn::LocalInvocationId
        | BuiltIn::WorkGroupId
        | BuiltIn::WorkGroupSize
        | BuiltIn::NumWorkGroups
        | BuiltIn::NumSubgroups
        | BuiltIn::SubgroupSize
        | BuiltIn::CullPrimitive
        | BuiltIn::PointIndex
        | BuiltIn::LineIndices
        | BuiltIn::TriangleIndices
        | BuiltIn::MeshTaskSize
        | BuiltIn::RayInvocationId
        | BuiltIn::NumRayInvocations
        | BuiltIn::InstanceCustomData
        | BuiltIn::GeometryIndex
        | BuiltIn::HitKind
        | BuiltIn::WorldRayOrigin
        | BuiltIn::WorldRayDirection
        | BuiltIn::ObjectRayOrigin
        | BuiltIn::ObjectRayDirection
        | BuiltIn::RayTmin
        | BuiltIn::RayTCurrentMax
        | BuiltIn::ObjectToWorld
        | BuiltIn::WorldToObject
        | BuiltIn::VertexCount
        | BuiltIn::PrimitiveCount
        | BuiltIn::Vertices
        | BuiltIn::Primitives => false,
    }
}

/// Whether a type is the one that a built-in has.
pub(crate) fn has_type(types: &UniqueArena<Type>, inner: &TypeInner, ty: &BuiltInType) -> bool
    requires { NamesTypesBelow (length types.now) inner.now }
    ensures { result ≡ has_built_in_type types.now inner.now ty.now }
{
    match ty {
        BuiltInType::Inner(wanted) => *inner == *wanted,
        BuiltInType::Distances => is_distances(types, inner),
        BuiltInType::Any => true,
    }
}

/// Whether a type is an array of at most 8 floats of 32 bits.
fn is_distances(types: &UniqueArena<Type>, inner: &TypeInner) -> bool
    requires { NamesTypesBelow (length types.now) inner.now }
    ensures { result ≡ is_distances types.now inner.now }
{
    match inner {
        TypeInner::Array {
            base,
            size: ArraySize::Constant(count),
            ..
        } => types[*base].inner == TypeInner::Scalar(Scalar::F32) && count.get() <= 8,
        _ => false,
    }
}
