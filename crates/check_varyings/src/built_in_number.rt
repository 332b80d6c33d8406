//! Built-ins as small numbers.

ghost use Rattle.std.specs.Prelude.{◌≡◌, ◌<◌};
ghost use Rattle.check_varyings.specs.BuiltInNumbers.{number_of};

use ir_leaves::built_in::BuiltIn as Bi;

/// The number of a built-in, below 64, which no other has.
pub(crate) fn number_of(built_in: Bi) -> u32
    ensures number { result ≡ number_of built_in }
    ensures small { result < 64 }
{
    match built_in {
        Bi::BaseInstance => 0,
        Bi::BaseVertex => 1,
        Bi::VertexIndex => 2,
        Bi::InstanceIndex => 3,
        Bi::DrawIndex => 4,
        Bi::ClipDistances => 5,
        Bi::CullDistance => 6,
        Bi::PointSize => 7,
        Bi::PointCoord => 8,
        Bi::Position { invariant: false } => 9,
        Bi::Position { invariant: true } => 49,
        Bi::ViewIndex => 10,
        Bi::FragDepth => 11,
        Bi::FrontFacing => 12,
        Bi::PrimitiveIndex => 13,
        Bi::Barycentric { perspective: false } => 14,
        Bi::Barycentric { perspective: true } => 50,
        Bi::SampleIndex => 15,
        Bi::SampleMask => 16,
        Bi::LocalInvocationIndex => 17,
        Bi::GlobalInvocationId => 18,
        Bi::LocalInvocationId => 19,
        Bi::WorkGroupId => 20,
        Bi::WorkGroupSize => 21,
        Bi::NumWorkGroups => 22,
        Bi::NumSubgroups => 23,
        Bi::SubgroupId => 24,
        Bi::SubgroupSize => 25,
        Bi::SubgroupInvocationId => 26,
        Bi::CullPrimitive => 27,
        Bi::PointIndex => 28,
        Bi::LineIndices => 29,
        Bi::TriangleIndices => 30,
        Bi::MeshTaskSize => 31,
        Bi::RayInvocationId => 32,
        Bi::NumRayInvocations => 33,
        Bi::InstanceCustomData => 34,
        Bi::GeometryIndex => 35,
        Bi::HitKind => 36,
        Bi::WorldRayOrigin => 37,
        Bi::WorldRayDirection => 38,
        Bi::ObjectRayOrigin => 39,
        Bi::ObjectRayDirection => 40,
        Bi::RayTmin => 41,
        Bi::RayTCurrentMax => 42,
        Bi::ObjectToWorld => 43,
        Bi::WorldToObject => 44,
        Bi::VertexCount => 45,
        Bi::PrimitiveCount => 46,
        Bi::Vertices => 47,
        Bi::Primitives => 48,
    }
}
