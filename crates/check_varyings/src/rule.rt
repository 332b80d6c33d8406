//! The table of built-ins: naga 30.0.1's `VaryingContext::validate_impl`.

ghost use Rattle.std.specs.Prelude.{◌≡◌};
ghost use Rattle.check_varyings.specs.BuiltIns.{built_in_rule, is_one_of, is_there, is_primitive_output, Into, OutOf};
ghost use Rattle.check_varyings.specs.CodeBuiltIns.{required_of, is_of_mesh_shaders, is_visible, type_of};

use crate::varying::{MeshOutputType, VaryingPlace};
use ir_flags::capabilities::Capabilities;
use ir_leaves::built_in::BuiltIn as Bi;
use ir_leaves::scalars::{Scalar, VectorSize};
use ir_leaves::stage::ShaderStage as St;
use ir_types::types::TypeInner;

/// What type a built-in has.
#[derive(PartialEq, Debug, Drop)]
pub enum BuiltInType {
    /// This type.
    Inner(TypeInner),
    /// An array of a constant number of floats of 32 bits, at most 8.
    Distances,
    /// Any type.
    Any,
}

/// The rule for a built-in at a place: the capability that it needs, whether it needs mesh shaders, whether it exists
/// there, and its type.
#[derive(PartialEq, Debug, Drop)]
pub struct BuiltInRule {
    pub required: Option<Capabilities>,
    pub mesh_shader: bool,
    pub visible: bool,
    pub ty: BuiltInType,
}

/// The rule for a built-in at a place. `invariant` and `perspective` make no difference.
#[tactic(auto, using(crate::proofs::RuleColumns::rule_is))]
pub fn builtin_rule(built_in: Bi, place: &VaryingPlace) -> BuiltInRule
    ensures { result ≡ built_in_rule built_in place.now }
{
    BuiltInRule {
        required: required(built_in, place.stage),
        mesh_shader: is_of_mesh_shaders(built_in),
        visible: is_visible(built_in, place),
        ty: type_of(built_in),
    }
}

/// The capability that a built-in needs, but for mesh shaders.
fn required(built_in: Bi, stage: St) -> Option<Capabilities>
    ensures { result ≡ required_of built_in stage }
{
    match built_in {
        Bi::ClipDistances => Some(Capabilities::CLIP_DISTANCES),
        Bi::CullDistance => Some(Capabilities::CULL_DISTANCE),
        Bi::PrimitiveIndex => match stage {
            St::AnyHit | St::ClosestHit => None,
            St::Vertex
            | St::Fragment
            | St::Compute
            | St::Mesh
            | St::Task
            | St::RayGeneration
            | St::Miss => Some(Capabilities::PRIMITIVE_INDEX),
        },
        Bi::Barycentric { .. } => Some(Capabilities::SHADER_BARYCENTRICS),
        Bi::ViewIndex => Some(Capabilities::MULTIVIEW),
        Bi::SampleIndex => Some(Capabilities::MULTISAMPLED_SHADING),
        Bi::NumSubgroups | Bi::SubgroupId | Bi::SubgroupSize | Bi::SubgroupInvocationId => Some(
            Capabilities::SUBGROUP,
        ),
        Bi::DrawIndex => Some(Capabilities::DRAW_INDEX),
        Bi::BaseInstance
        | Bi::BaseVertex
        | Bi::VertexIndex
        | Bi::InstanceIndex
        | Bi::PointSize
        | Bi::PointCoord
        | Bi::Position { .. }
        | Bi::FragDepth
        | Bi::FrontFacing
        | Bi::SampleMask
        | Bi::LocalInvocationIndex
        | Bi::GlobalInvocationId
        | Bi::LocalInvocationId
        | Bi::WorkGroupId
        | Bi::WorkGroupSize
        | Bi::NumWorkGroups
        | Bi::CullPrimitive
        | Bi::PointIndex
        | Bi::LineIndices
        | Bi::TriangleIndices
        | Bi::MeshTaskSize
        | Bi::RayInvocationId
        | Bi::NumRayInvocations
        | Bi::InstanceCustomData
        | Bi::GeometryIndex
        | Bi::HitKind
        | Bi::WorldRayOrigin
        | Bi::WorldRayDirection
        | Bi::ObjectRayOrigin
        | Bi::ObjectRayDirection
        | Bi::RayTmin
        | Bi::RayTCurrentMax
        | Bi::ObjectToWorld
        | Bi::WorldToObject
        | Bi::VertexCount
        | Bi::PrimitiveCount
        | Bi::Vertices
        | Bi::Primitives => None,
    }
}

/// Whether a built-in needs mesh shaders.
fn is_of_mesh_shaders(built_in: Bi) -> bool
    ensures { result ≡ is_of_mesh_shaders built_in }
{
    match built_in {
        Bi::CullPrimitive
        | Bi::PointIndex
        | Bi::LineIndices
        | Bi::TriangleIndices
        | Bi::MeshTaskSize
        | Bi::VertexCount
        | Bi::PrimitiveCount
        | Bi::Vertices
        | Bi::Primitives => true,
        Bi::BaseInstance
        | Bi::BaseVertex
        | Bi::VertexIndex
        | Bi::InstanceIndex
        | Bi::DrawIndex
        | Bi::ClipDistances
        | Bi::CullDistance
        | Bi::PointSize
        | Bi::PointCoord
        | Bi::Position { .. }
        | Bi::ViewIndex
        | Bi::FragDepth
        | Bi::FrontFacing
        | Bi::PrimitiveIndex
        | Bi::Barycentric { .. }
        | Bi::SampleIndex
        | Bi::SampleMask
        | Bi::LocalInvocationIndex
        | Bi::GlobalInvocationId
        | Bi::LocalInvocationId
        | Bi::WorkGroupId
        | Bi::WorkGroupSize
        | Bi::NumWorkGroups
        | Bi::NumSubgroups
        | Bi::SubgroupId
        | Bi::SubgroupSize
        | Bi::SubgroupInvocationId
        | Bi::RayInvocationId
        | Bi::NumRayInvocations
        | Bi::InstanceCustomData
        | Bi::GeometryIndex
        | Bi::HitKind
        | Bi::WorldRayOrigin
        | Bi::WorldRayDirection
        | Bi::ObjectRayOrigin
        | Bi::ObjectRayDirection
        | Bi::RayTmin
        | Bi::RayTCurrentMax
        | Bi::ObjectToWorld
        | Bi::WorldToObject => false,
    }
}

/// Whether a built-in is visible at a place.
fn is_visible(built_in: Bi, place: &VaryingPlace) -> bool
    ensures { result ≡ is_visible built_in place.now }
{
    match built_in {
        Bi::BaseInstance | Bi::BaseVertex | Bi::VertexIndex => { is_input(place, &[St::Vertex]) }
        Bi::InstanceIndex => is_input(place, &[St::Vertex, St::AnyHit, St::ClosestHit]),
        Bi::DrawIndex => {
            is_input(place, &[St::Vertex, St::Task])
                || is_input(place, &[St::Mesh]) && !place.has_task_payload
        }
        Bi::ClipDistances | Bi::CullDistance | Bi::PointSize => {
            is_output(place, &[St::Vertex, St::Mesh])
        }
        Bi::PointCoord | Bi::FrontFacing | Bi::Barycentric { .. } | Bi::SampleIndex => is_input(
            place,
            &[St::Fragment],
        ),
        Bi::Position { .. } => {
            is_output(place, &[St::Vertex, St::Mesh]) || is_input(place, &[St::Fragment])
        }
        Bi::ViewIndex => is_input(place, &[St::Vertex, St::Fragment, St::Task, St::Mesh]),
        Bi::FragDepth => is_output(place, &[St::Fragment]),
        Bi::PrimitiveIndex => {
            is_input(place, &[St::Fragment, St::AnyHit, St::ClosestHit])
                || is_output(place, &[St::Mesh]) && is_primitive_output(place)
        }
        Bi::SampleMask => is_at_one_of(place, &[St::Fragment]),
        Bi::LocalInvocationIndex
        | Bi::GlobalInvocationId
        | Bi::LocalInvocationId
        | Bi::WorkGroupId
        | Bi::WorkGroupSize
        | Bi::NumWorkGroups
        | Bi::NumSubgroups
        | Bi::SubgroupId => is_input(place, &[St::Compute, St::Task, St::Mesh]),
        Bi::SubgroupSize | Bi::SubgroupInvocationId => {
            !is_at_one_of(place, &[St::Vertex]) && !place.output
        }
        Bi::CullPrimitive | Bi::PointIndex | Bi::LineIndices | Bi::TriangleIndices =>
            is_primitive_output(place),
        Bi::MeshTaskSize => is_output(place, &[St::Task]),
        Bi::RayInvocationId | Bi::NumRayInvocations => is_at_one_of(
            place,
            &[St::RayGeneration, St::AnyHit, St::ClosestHit, St::Miss],
        ),
        Bi::InstanceCustomData
        | Bi::GeometryIndex
        | Bi::HitKind
        | Bi::ObjectRayOrigin
        | Bi::ObjectRayDirection
        | Bi::ObjectToWorld
        | Bi::WorldToObject => is_at_one_of(place, &[St::AnyHit, St::ClosestHit]),
        Bi::WorldRayOrigin | Bi::WorldRayDirection | Bi::RayTmin | Bi::RayTCurrentMax =>
            is_at_one_of(place, &[St::AnyHit, St::ClosestHit, St::Miss]),
        Bi::VertexCount | Bi::PrimitiveCount | Bi::Vertices | Bi::Primitives => false,
    }
}

/// Whether the place is at one of these stages, in whatever direction.
fn is_at_one_of(place: &VaryingPlace, stages: &[St]) -> bool
    ensures { result ≡ is_one_of stages.now place.now.stage }
{
    stages.contains(&place.stage)
}

/// Whether the place is an input of one of these stages.
fn is_input(place: &VaryingPlace, stages: &[St]) -> bool
    ensures { result ≡ is_there place.now (Into stages.now) }
{
    is_at_one_of(place, stages) && !place.output
}

/// Whether the place is an output of one of these stages.
fn is_output(place: &VaryingPlace, stages: &[St]) -> bool
    ensures { result ≡ is_there place.now (OutOf stages.now) }
{
    is_at_one_of(place, stages) && place.output
}

/// Whether primitives of a mesh are put out here.
pub(crate) fn is_primitive_output(place: &VaryingPlace) -> bool
    ensures { result ≡ is_primitive_output place.now.mesh_output }
{
    match place.mesh_output {
        MeshOutputType::PrimitiveOutput => true,
        MeshOutputType::Neither | MeshOutputType::VertexOutput => false,
    }
}

/// The type of a built-in.
fn type_of(built_in: Bi) -> BuiltInType
    ensures { result ≡ type_of built_in }
{
    match built_in {
        Bi::BaseInstance
        | Bi::BaseVertex
        | Bi::VertexIndex
        | Bi::InstanceIndex
        | Bi::DrawIndex
        | Bi::ViewIndex
        | Bi::PrimitiveIndex
        | Bi::SampleIndex
        | Bi::SampleMask
        | Bi::LocalInvocationIndex
        | Bi::NumSubgroups
        | Bi::SubgroupId
        | Bi::SubgroupSize
        | Bi::SubgroupInvocationId
        | Bi::PointIndex
        | Bi::InstanceCustomData
        | Bi::GeometryIndex
        | Bi::HitKind => scalar(Scalar::U32),
        Bi::ClipDistances | Bi::CullDistance => BuiltInType::Distances,
        Bi::PointSize | Bi::FragDepth | Bi::RayTmin | Bi::RayTCurrentMax => scalar(Scalar::F32),
        Bi::PointCoord => vector(VectorSize::Bi, Scalar::F32),
        Bi::Position { .. } => vector(VectorSize::Quad, Scalar::F32),
        Bi::FrontFacing | Bi::CullPrimitive => scalar(Scalar::BOOL),
        Bi::Barycentric { .. }
        | Bi::WorldRayOrigin
        | Bi::WorldRayDirection
        | Bi::ObjectRayOrigin
        | Bi::ObjectRayDirection => vector(VectorSize::Tri, Scalar::F32),
        Bi::GlobalInvocationId
        | Bi::LocalInvocationId
        | Bi::WorkGroupId
        | Bi::WorkGroupSize
        | Bi::NumWorkGroups
        | Bi::TriangleIndices
        | Bi::MeshTaskSize
        | Bi::RayInvocationId
        | Bi::NumRayInvocations => vector(VectorSize::Tri, Scalar::U32),
        Bi::LineIndices => vector(VectorSize::Bi, Scalar::U32),
        Bi::ObjectToWorld | Bi::WorldToObject => {
            BuiltInType::Inner(TypeInner::Matrix {
                columns: VectorSize::Quad,
                rows: VectorSize::Tri,
                scalar: Scalar::F32,
            })
        }
        Bi::VertexCount | Bi::PrimitiveCount | Bi::Vertices | Bi::Primitives => BuiltInType::Any,
    }
}

/// The type of a scalar.
fn scalar(scalar: Scalar) -> BuiltInType
    ensures { result ≡ BuiltInType.Inner (TypeInner.Scalar scalar) }
{
    BuiltInType::Inner(TypeInner::Scalar(scalar))
}

/// The type of a vector.
fn vector(size: VectorSize, scalar: Scalar) -> BuiltInType
    ensures { result ≡ BuiltInType.Inner (TypeInner.Vector size scalar) }
{
    BuiltInType::Inner(TypeInner::Vector { size, scalar })
}
