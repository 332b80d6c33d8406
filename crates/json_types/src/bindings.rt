//! What inputs and outputs of stages are bound to.

ghost use Rattle.json_nodes.specs.Nodes.{data_of};
ghost use Rattle.json_values.specs.Reads.{ReadsMeaning};
ghost use Rattle.json_types.specs.Bindings.{binding_from, binding_of, built_in_from, built_in_of, interpolation_of, location_of, sampling_of};

use crate::types::Types;
use ir_leaves::{Binding, BuiltIn, Interpolation, Sampling};
use json_values::{FromJson, Held, Holding, ReadError, read_either, read_holding, read_name};

/// The built-ins of which no more is said.
const BUILT_INS: [(&str, BuiltIn); 47] = [
    ("BaseInstance", BuiltIn::BaseInstance),
    ("BaseVertex", BuiltIn::BaseVertex),
    ("VertexIndex", BuiltIn::VertexIndex),
    ("InstanceIndex", BuiltIn::InstanceIndex),
    ("DrawIndex", BuiltIn::DrawIndex),
    ("ClipDistances", BuiltIn::ClipDistances),
    ("CullDistance", BuiltIn::CullDistance),
    ("PointSize", BuiltIn::PointSize),
    ("PointCoord", BuiltIn::PointCoord),
    ("ViewIndex", BuiltIn::ViewIndex),
    ("FragDepth", BuiltIn::FragDepth),
    ("FrontFacing", BuiltIn::FrontFacing),
    ("PrimitiveIndex", BuiltIn::PrimitiveIndex),
    ("SampleIndex", BuiltIn::SampleIndex),
    ("SampleMask", BuiltIn::SampleMask),
    ("LocalInvocationIndex", BuiltIn::LocalInvocationIndex),
    ("GlobalInvocationId", BuiltIn::GlobalInvocationId),
    ("LocalInvocationId", BuiltIn::LocalInvocationId),
    ("WorkGroupId", BuiltIn::WorkGroupId),
    ("WorkGroupSize", BuiltIn::WorkGroupSize),
    ("NumWorkGroups", BuiltIn::NumWorkGroups),
    ("NumSubgroups", BuiltIn::NumSubgroups),
    ("SubgroupId", BuiltIn::SubgroupId),
    ("SubgroupSize", BuiltIn::SubgroupSize),
    ("SubgroupInvocationId", BuiltIn::SubgroupInvocationId),
    ("CullPrimitive", BuiltIn::CullPrimitive),
    ("PointIndex", BuiltIn::PointIndex),
    ("LineIndices", BuiltIn::LineIndices),
    ("TriangleIndices", BuiltIn::TriangleIndices),
    ("MeshTaskSize", BuiltIn::MeshTaskSize),
    ("RayInvocationId", BuiltIn::RayInvocationId),
    ("NumRayInvocations", BuiltIn::NumRayInvocations),
    ("InstanceCustomData", BuiltIn::InstanceCustomData),
    ("GeometryIndex", BuiltIn::GeometryIndex),
    ("HitKind", BuiltIn::HitKind),
    ("WorldRayOrigin", BuiltIn::WorldRayOrigin),
    ("WorldRayDirection", BuiltIn::WorldRayDirection),
    ("ObjectRayOrigin", BuiltIn::ObjectRayOrigin),
    ("ObjectRayDirection", BuiltIn::ObjectRayDirection),
    ("RayTmin", BuiltIn::RayTmin),
    ("RayTCurrentMax", BuiltIn::RayTCurrentMax),
    ("ObjectToWorld", BuiltIn::ObjectToWorld),
    ("WorldToObject", BuiltIn::WorldToObject),
    ("VertexCount", BuiltIn::VertexCount),
    ("PrimitiveCount", BuiltIn::PrimitiveCount),
    ("Vertices", BuiltIn::Vertices),
    ("Primitives", BuiltIn::Primitives),
];

/// The built-ins of which more is said.
#[derive(Clone, Copy)]
enum BuiltInName {
    Position,
    Barycentric,
}

/// Their names.
const HOLDING_BUILT_INS: [(&str, BuiltInName); 2] = [
    ("Position", BuiltInName::Position),
    ("Barycentric", BuiltInName::Barycentric),
];

impl Holding<BuiltInName, Types> for BuiltIn {
    ghost held_of = { built_in_from };

    fn read_held(name: BuiltInName, _: Types, held: Held) -> Result<Self, ReadError> {
        match name {
            BuiltInName::Position => match held.one(Types, "invariant") {
                Ok(invariant) => Ok(BuiltIn::Position { invariant }),
                Err(error) => Err(error),
            },
            BuiltInName::Barycentric => match held.one(Types, "perspective") {
                Ok(perspective) => Ok(BuiltIn::Barycentric { perspective }),
                Err(error) => Err(error),
            },
        }
    }
}

impl FromJson<Types> for BuiltIn {
    ghost stands_for = { built_in_of };

    fn from_json(_: Types, held: Held) -> Result<Self, ReadError> {
        read_either(Types, held, &BUILT_INS, &HOLDING_BUILT_INS)
    }
}

/// The interpolations.
const INTERPOLATIONS: [(&str, Interpolation); 4] = [
    ("Perspective", Interpolation::Perspective),
    ("Linear", Interpolation::Linear),
    ("Flat", Interpolation::Flat),
    ("PerVertex", Interpolation::PerVertex),
];

impl FromJson<Types> for Interpolation {
    ghost stands_for = { interpolation_of };

    fn from_json(_: Types, held: Held) -> Result<Self, ReadError> {
        read_name(held.alloc, held.value, &INTERPOLATIONS)
    }
}

/// The samplings.
const SAMPLINGS: [(&str, Sampling); 5] = [
    ("Center", Sampling::Center),
    ("Centroid", Sampling::Centroid),
    ("Sample", Sampling::Sample),
    ("First", Sampling::First),
    ("Either", Sampling::Either),
];

impl FromJson<Types> for Sampling {
    ghost stands_for = { sampling_of };

    fn from_json(_: Types, held: Held) -> Result<Self, ReadError> {
        read_name(held.alloc, held.value, &SAMPLINGS)
    }
}

/// The bindings.
#[derive(Clone, Copy)]
enum BindingName {
    BuiltIn,
    Location,
}

/// Their names.
const BINDINGS: [(&str, BindingName); 2] = [
    ("BuiltIn", BindingName::BuiltIn),
    ("Location", BindingName::Location),
];

fn read_location(held: Held) -> Result<Binding, ReadError>
    ensures { ReadsMeaning (location_of (data_of held.entry.value.now)) result }
{
    match held.five(
        Types,
        &(
            "location",
            "interpolation",
            "sampling",
            "blend_src",
            "per_primitive",
        ),
    ) {
        Ok((location, interpolation, sampling, blend_src, per_primitive)) => Ok(
            Binding::Location {
                location,
                interpolation,
                sampling,
                blend_src,
                per_primitive,
            },
        ),
        Err(error) => Err(error),
    }
}

impl Holding<BindingName, Types> for Binding {
    ghost held_of = { binding_from };

    fn read_held(name: BindingName, _: Types, held: Held) -> Result<Self, ReadError> {
        match name {
            BindingName::BuiltIn => match held.read(Types) {
                Ok(found) => Ok(Binding::BuiltIn(found)),
                Err(error) => Err(error),
            },
            BindingName::Location => read_location(held),
        }
    }
}

impl FromJson<Types> for Binding {
    ghost stands_for = { binding_of };

    fn from_json(_: Types, held: Held) -> Result<Self, ReadError> {
        read_holding(Types, held, &BINDINGS)
    }
}
