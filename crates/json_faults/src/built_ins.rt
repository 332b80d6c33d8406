//! Built-in inputs and outputs.

ghost use Rattle.std.specs.Prelude.{◌≡◌};
ghost use Rattle.json_faults.specs.BuiltInJson.{built_in_name, built_in_form};

use crate::parts::holding_field;
use crate::to_json::ToJson;
use crate::writer::JsonWriter;
use ir_leaves::BuiltIn;
use std::alloc::AllocError;

/// The name of a built-in.
#[tactic(auto, unfolding(crate::specs::BuiltInJson::built_in_name))]
fn built_in_name(built_in: BuiltIn) -> &'static str
    ensures { result.now ≡ built_in_name built_in }
{
    match built_in {
        BuiltIn::BaseInstance => "BaseInstance",
        BuiltIn::BaseVertex => "BaseVertex",
        BuiltIn::VertexIndex => "VertexIndex",
        BuiltIn::InstanceIndex => "InstanceIndex",
        BuiltIn::DrawIndex => "DrawIndex",
        BuiltIn::ClipDistances => "ClipDistances",
        BuiltIn::CullDistance => "CullDistance",
        BuiltIn::PointSize => "PointSize",
        BuiltIn::PointCoord => "PointCoord",
        BuiltIn::Position { .. } => "Position",
        BuiltIn::ViewIndex => "ViewIndex",
        BuiltIn::FragDepth => "FragDepth",
        BuiltIn::FrontFacing => "FrontFacing",
        BuiltIn::PrimitiveIndex => "PrimitiveIndex",
        BuiltIn::Barycentric { .. } => "Barycentric",
        BuiltIn::SampleIndex => "SampleIndex",
        BuiltIn::SampleMask => "SampleMask",
        BuiltIn::LocalInvocationIndex => "LocalInvocationIndex",
        BuiltIn::GlobalInvocationId => "GlobalInvocationId",
        BuiltIn::LocalInvocationId => "LocalInvocationId",
        BuiltIn::WorkGroupId => "WorkGroupId",
        BuiltIn::WorkGroupSize => "WorkGroupSize",
        BuiltIn::NumWorkGroups => "NumWorkGroups",
        BuiltIn::NumSubgroups => "NumSubgroups",
        BuiltIn::SubgroupId => "SubgroupId",
        BuiltIn::SubgroupSize => "SubgroupSize",
        BuiltIn::SubgroupInvocationId => "SubgroupInvocationId",
        BuiltIn::CullPrimitive => "CullPrimitive",
        BuiltIn::PointIndex => "PointIndex",
        BuiltIn::LineIndices => "LineIndices",
        BuiltIn::TriangleIndices => "TriangleIndices",
        BuiltIn::MeshTaskSize => "MeshTaskSize",
        BuiltIn::RayInvocationId => "RayInvocationId",
        BuiltIn::NumRayInvocations => "NumRayInvocations",
        BuiltIn::InstanceCustomData => "InstanceCustomData",
        BuiltIn::GeometryIndex => "GeometryIndex",
        BuiltIn::HitKind => "HitKind",
        BuiltIn::WorldRayOrigin => "WorldRayOrigin",
        BuiltIn::WorldRayDirection => "WorldRayDirection",
        BuiltIn::ObjectRayOrigin => "ObjectRayOrigin",
        BuiltIn::ObjectRayDirection => "ObjectRayDirection",
        BuiltIn::RayTmin => "RayTmin",
        BuiltIn::RayTCurrentMax => "RayTCurrentMax",
        BuiltIn::ObjectToWorld => "ObjectToWorld",
        BuiltIn::WorldToObject => "WorldToObject",
        BuiltIn::VertexCount => "VertexCount",
        BuiltIn::PrimitiveCount => "PrimitiveCount",
        BuiltIn::Vertices => "Vertices",
        BuiltIn::Primitives => "Primitives",
    }
}

impl ToJson for BuiltIn {
    ghost form = { built_in_form };

    #[tactic(auto, unfolding(crate::specs::BuiltInJson::built_in_form))]
    fn write_json(&self, out: &mut JsonWriter) -> Result<(), AllocError> {
        let variant = built_in_name(*self);
        match self {
            BuiltIn::Position { invariant } => holding_field(
                out,
                &(variant, "invariant"),
                invariant,
            ),
            BuiltIn::Barycentric { perspective } => holding_field(
                out,
                &(variant, "perspective"),
                perspective,
            ),
            BuiltIn::BaseInstance
            | BuiltIn::BaseVertex
            | BuiltIn::VertexIndex
            | BuiltIn::InstanceIndex
            | BuiltIn::DrawIndex
            | BuiltIn::ClipDistances
            | BuiltIn::CullDistance
            | BuiltIn::PointSize
            | BuiltIn::PointCoord
            | BuiltIn::ViewIndex
            | BuiltIn::FragDepth
            | BuiltIn::FrontFacing
            | BuiltIn::PrimitiveIndex
            | BuiltIn::SampleIndex
            | BuiltIn::SampleMask
            | BuiltIn::LocalInvocationIndex
            | BuiltIn::GlobalInvocationId
            | BuiltIn::LocalInvocationId
            | BuiltIn::WorkGroupId
            | BuiltIn::WorkGroupSize
            | BuiltIn::NumWorkGroups
            | BuiltIn::NumSubgroups
            | BuiltIn::SubgroupId
            | BuiltIn::SubgroupSize
            | BuiltIn::SubgroupInvocationId
            | BuiltIn::CullPrimitive
            | BuiltIn::PointIndex
            | BuiltIn::LineIndices
            | BuiltIn::TriangleIndices
            | BuiltIn::MeshTaskSize
            | BuiltIn::RayInvocationId
            | BuiltIn::NumRayInvocations
            | BuiltIn::InstanceCustomData
            | BuiltIn::GeometryIndex
            | BuiltIn::HitKind
            | BuiltIn::WorldRayOrigin
            | BuiltIn::WorldRayDirection
            | BuiltIn::ObjectRayOrigin
            | BuiltIn::ObjectRayDirection
            | BuiltIn::RayTmin
            | BuiltIn::RayTCurrentMax
            | BuiltIn::ObjectToWorld
            | BuiltIn::WorldToObject
            | BuiltIn::VertexCount
            | BuiltIn::PrimitiveCount
            | BuiltIn::Vertices
            | BuiltIn::Primitives => out.string(variant),
        }
    }
}
