//! Global variables, and entry points.

ghost use Rattle.json_document.specs.Document.EntryPoints.{constant_of, early_depth_test_of, entry_point_of, global_variable_of, mesh_output_topology_of, mesh_stage_info_of, override_of, resource_binding_of, shader_stage_of, special_types_of};

use crate::document::Documents;
use ir_leaves::ShaderStage;
use ir_module::{
    Constant, EarlyDepthTest, EntryPoint, GlobalVariable, MeshOutputTopology, MeshStageInfo,
    Override, ResourceBinding, SpecialTypes,
};
use json_values::{FromJson, Held, ReadError, read_name};

/// The stages.
const SHADER_STAGES: [(&str, ShaderStage); 9] = [
    ("Vertex", ShaderStage::Vertex),
    ("Fragment", ShaderStage::Fragment),
    ("Compute", ShaderStage::Compute),
    ("Mesh", ShaderStage::Mesh),
    ("Task", ShaderStage::Task),
    ("RayGeneration", ShaderStage::RayGeneration),
    ("AnyHit", ShaderStage::AnyHit),
    ("ClosestHit", ShaderStage::ClosestHit),
    ("Miss", ShaderStage::Miss),
];

impl FromJson<Documents> for ShaderStage {
    ghost stands_for = { shader_stage_of };

    fn from_json(_: Documents, held: Held) -> Result<Self, ReadError> {
        read_name(held.alloc, held.value, &SHADER_STAGES)
    }
}

/// What the primitives of a mesh are.
const MESH_OUTPUT_TOPOLOGIES: [(&str, MeshOutputTopology); 3] = [
    ("Points", MeshOutputTopology::Points),
    ("Lines", MeshOutputTopology::Lines),
    ("Triangles", MeshOutputTopology::Triangles),
];

impl FromJson<Documents> for MeshOutputTopology {
    ghost stands_for = { mesh_output_topology_of };

    fn from_json(_: Documents, held: Held) -> Result<Self, ReadError> {
        read_name(held.alloc, held.value, &MESH_OUTPUT_TOPOLOGIES)
    }
}

impl FromJson<Documents> for MeshStageInfo {
    ghost stands_for = { mesh_stage_info_of };

    fn from_json(_: Documents, held: Held) -> Result<Self, ReadError> {
        match held.eight(
            Documents,
            &(
                "topology",
                "max_vertices",
                "max_vertices_override",
                "max_primitives",
                "max_primitives_override",
                "vertex_output_type",
                "primitive_output_type",
                "output_variable",
            ),
        ) {
            Ok(
                (
                    topology,
                    max_vertices,
                    max_vertices_override,
                    max_primitives,
                    max_primitives_override,
                    vertex_output_type,
                    primitive_output_type,
                    output_variable,
                ),
            ) => Ok(MeshStageInfo {
                topology,
                max_vertices,
                max_vertices_override,
                max_primitives,
                max_primitives_override,
                vertex_output_type,
                primitive_output_type,
                output_variable,
            }),
            Err(error) => Err(error),
        }
    }
}

impl FromJson<Documents> for Constant {
    ghost stands_for = { constant_of };

    fn from_json(_: Documents, held: Held) -> Result<Self, ReadError> {
        match held.one(Documents, "ty") {
            Ok(ty) => Ok(Constant { ty }),
            Err(error) => Err(error),
        }
    }
}

impl FromJson<Documents> for Override {
    ghost stands_for = { override_of };

    fn from_json(_: Documents, held: Held) -> Result<Self, ReadError> {
        match held.one(Documents, "ty") {
            Ok(ty) => Ok(Override { ty }),
            Err(error) => Err(error),
        }
    }
}

impl FromJson<Documents> for SpecialTypes {
    ghost stands_for = { special_types_of };

    fn from_json(_: Documents, held: Held) -> Result<Self, ReadError> {
        match held.one(Documents, "ray_desc") {
            Ok(ray_desc) => Ok(SpecialTypes { ray_desc }),
            Err(error) => Err(error),
        }
    }
}

impl FromJson<Documents> for ResourceBinding {
    ghost stands_for = { resource_binding_of };

    fn from_json(_: Documents, held: Held) -> Result<Self, ReadError> {
        match held.two(Documents, &("group", "binding")) {
            Ok((group, binding)) => Ok(ResourceBinding { group, binding }),
            Err(error) => Err(error),
        }
    }
}

impl FromJson<Documents> for GlobalVariable {
    ghost stands_for = { global_variable_of };

    fn from_json(_: Documents, held: Held) -> Result<Self, ReadError> {
        match held.five(
            Documents,
            &("space", "binding", "ty", "init", "memory_decorations"),
        ) {
            Ok((space, binding, ty, init, memory_decorations)) => Ok(GlobalVariable {
                space,
                binding,
                ty,
                init,
                memory_decorations,
            }),
            Err(error) => Err(error),
        }
    }
}

impl FromJson<Documents> for EarlyDepthTest {
    ghost stands_for = { early_depth_test_of };

    fn from_json(_: Documents, held: Held) -> Result<Self, ReadError> {
        match u32::from_json(Documents, held) {
            Ok(test) => Ok(EarlyDepthTest(test)),
            Err(error) => Err(error),
        }
    }
}

impl FromJson<Documents> for EntryPoint {
    ghost stands_for = { entry_point_of };

    fn from_json(_: Documents, held: Held) -> Result<Self, ReadError> {
        match held.six(
            Documents,
            &(
                "stage",
                "early_depth_test",
                "workgroup_size",
                "function",
                "mesh_info",
                "task_payload",
            ),
        ) {
            Ok((stage, early_depth_test, size, function, mesh_info, task_payload)) => {
                let (x, y, z) = size;
                let workgroup_size = [x, y, z];
                Ok(EntryPoint {
                    stage,
                    early_depth_test,
                    workgroup_size,
                    function,
                    mesh_info,
                    task_payload,
                })
            }
            Err(error) => Err(error),
        }
    }
}
