//! Built-ins at places that no entry point has: the outputs of a mesh at other stages, and task payloads at others than a mesh's.

use check_varyings::{BuiltInRule, MeshOutputType, VaryingPlace, builtin_rule};
use ir_flags::{Capabilities, ValidationFlags};
use ir_leaves::{BuiltIn, ShaderStage};
use std::process::Abort;

/// How many built-ins there are, with both values of `invariant` and of `perspective`.
const BUILT_INS: u32 = 51;

/// The built-ins of outputs of primitives, and those of meshes and rays.
fn later_built_in(index: u32) -> BuiltIn {
    match index {
        29 => BuiltIn::CullPrimitive,
        30 => BuiltIn::PointIndex,
        31 => BuiltIn::LineIndices,
        32 => BuiltIn::TriangleIndices,
        33 => BuiltIn::MeshTaskSize,
        34 => BuiltIn::VertexCount,
        35 => BuiltIn::PrimitiveCount,
        36 => BuiltIn::Vertices,
        37 => BuiltIn::Primitives,
        38 => BuiltIn::RayInvocationId,
        39 => BuiltIn::NumRayInvocations,
        40 => BuiltIn::InstanceCustomData,
        41 => BuiltIn::GeometryIndex,
        42 => BuiltIn::HitKind,
        43 => BuiltIn::WorldRayOrigin,
        44 => BuiltIn::WorldRayDirection,
        45 => BuiltIn::ObjectRayOrigin,
        46 => BuiltIn::ObjectRayDirection,
        47 => BuiltIn::RayTmin,
        48 => BuiltIn::RayTCurrentMax,
        49 => BuiltIn::ObjectToWorld,
        _ => BuiltIn::WorldToObject,
    }
}

/// The built-in with a number.
fn built_in(index: u32) -> BuiltIn {
    match index {
        0 => BuiltIn::BaseInstance,
        1 => BuiltIn::BaseVertex,
        2 => BuiltIn::VertexIndex,
        3 => BuiltIn::InstanceIndex,
        4 => BuiltIn::DrawIndex,
        5 => BuiltIn::ClipDistances,
        6 => BuiltIn::CullDistance,
        7 => BuiltIn::PointSize,
        8 => BuiltIn::PointCoord,
        9 => BuiltIn::Position { invariant: false },
        10 => BuiltIn::Position { invariant: true },
        11 => BuiltIn::ViewIndex,
        12 => BuiltIn::FragDepth,
        13 => BuiltIn::FrontFacing,
        14 => BuiltIn::PrimitiveIndex,
        15 => BuiltIn::Barycentric { perspective: false },
        16 => BuiltIn::Barycentric { perspective: true },
        17 => BuiltIn::SampleIndex,
        18 => BuiltIn::SampleMask,
        19 => BuiltIn::LocalInvocationIndex,
        20 => BuiltIn::GlobalInvocationId,
        21 => BuiltIn::LocalInvocationId,
        22 => BuiltIn::WorkGroupId,
        23 => BuiltIn::WorkGroupSize,
        24 => BuiltIn::NumWorkGroups,
        25 => BuiltIn::NumSubgroups,
        26 => BuiltIn::SubgroupId,
        27 => BuiltIn::SubgroupSize,
        28 => BuiltIn::SubgroupInvocationId,
        _ => later_built_in(index),
    }
}

pub(crate) static STAGES: [ShaderStage; 9] = [
    ShaderStage::Vertex,
    ShaderStage::Fragment,
    ShaderStage::Compute,
    ShaderStage::Mesh,
    ShaderStage::Task,
    ShaderStage::RayGeneration,
    ShaderStage::AnyHit,
    ShaderStage::ClosestHit,
    ShaderStage::Miss,
];

/// A place where bindings are checked, on a target with every capability, of an entry point without a task payload and with
/// one invocation.
pub(crate) fn at(stage: ShaderStage, output: bool) -> VaryingPlace {
    VaryingPlace {
        stage,
        output,
        mesh_output: MeshOutputType::Neither,
        has_task_payload: false,
        workgroup_size: [1, 1, 1],
        capabilities: Capabilities::ALL,
        flags: ValidationFlags::BINDINGS,
    }
}

/// What is said of a built-in at a place is what is said of it at another, but for where it is visible.
fn expect_at(rt: &impl Abort, built_in: BuiltIn, place: &VaryingPlace, other: &BuiltInRule) {
    let rule = builtin_rule(built_in, place);
    holds!(rt; rule.visible == is_visible_at(built_in, place, other.visible));
    holds!(rt; rule.required == other.required);
    holds!(rt; rule.mesh_shader == other.mesh_shader);
}

/// Whether a built-in is visible as an output of primitives, where it isn't as another output of the stage.
fn is_of_primitives(built_in: BuiltIn, place: &VaryingPlace) -> bool {
    match built_in {
        BuiltIn::CullPrimitive
        | BuiltIn::PointIndex
        | BuiltIn::LineIndices
        | BuiltIn::TriangleIndices => true,
        BuiltIn::PrimitiveIndex => place.output && place.stage == ShaderStage::Mesh,
        _ => false,
    }
}

/// Whether a built-in that is visible elsewhere, or isn't, is visible at a place. The output of a mesh changes what is visible of
/// primitives alone, and the task payload that DrawIndex goes into a mesh.
fn is_visible_at(built_in: BuiltIn, place: &VaryingPlace, elsewhere: bool) -> bool {
    let is_of_draws = matches!(built_in, BuiltIn::DrawIndex);
    if place.has_task_payload && is_of_draws && place.stage == ShaderStage::Mesh {
        false
    } else if place.mesh_output == MeshOutputType::PrimitiveOutput {
        elsewhere || is_of_primitives(built_in, place)
    } else {
        elsewhere
    }
}

/// Other places: whether there is a task payload, and the output of a mesh.
static OTHERS: [(bool, MeshOutputType); 5] = [
    (true, MeshOutputType::Neither),
    (true, MeshOutputType::VertexOutput),
    (true, MeshOutputType::PrimitiveOutput),
    (false, MeshOutputType::PrimitiveOutput),
    (false, MeshOutputType::VertexOutput),
];

/// What is said of a built-in at a place and at the others.
fn compare(rt: &impl Abort, built_in: BuiltIn, mut place: VaryingPlace) {
    let rule = builtin_rule(built_in, &place);
    for &(has_task_payload, mesh_output) in &OTHERS {
        place.has_task_payload = has_task_payload;
        place.mesh_output = mesh_output;
        expect_at(rt, built_in, &place, &rule);
    }
}

#[test]
fn places_that_no_entry_point_has(rt: HostRuntime) {
    for index in 0..BUILT_INS {
        for &stage in &STAGES {
            compare(&rt, built_in(index), at(stage, false));
            compare(&rt, built_in(index), at(stage, true));
        }
    }
}
