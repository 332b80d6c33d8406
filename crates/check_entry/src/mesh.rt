//! The checks of what an entry point says of its mesh.

ghost use Rattle.std.specs.Prelude.{◌≡◌};
ghost use Rattle.check_entry.specs.Mesh.{mesh_error, override_at, is_implied, with_overrides_of, is_same_mesh, is_points, has_topology, variable_points, stated_points};
ghost use Rattle.ir_types.specs.SpaceTests.{is_work_group};
ghost use Rattle.check_entry.specs.EntryUses.{lies_in};
ghost use Rattle.ir_facts.specs.Answers.{Finds, FirstOf};

use check_faults::entry::EntryPointError;
use ir_arena::handle::Handle;
use ir_arena::tag;
use ir_errors::mesh::MeshFault;
use ir_flags::capabilities::Capabilities;
use ir_module::expressions::Expression;
use ir_module::module::{MeshOutputTopology, MeshStageInfo, Module};

/// What is wrong with the output variable, as a fault of the entry point.
pub(crate) fn mesh_error(found: MeshFault) -> EntryPointError
    ensures { result ≡ mesh_error found }
{
    match found {
        MeshFault::OutputType => EntryPointError::BadMeshOutputVariableType,
        MeshFault::OutputField => EntryPointError::BadMeshOutputVariableField,
    }
}

fn is_in_work_group(module: &Module, global: Handle<tag::GlobalVariable>) -> bool
    ensures { result ≡ lies_in is_work_group «module».now.global_variables global }
{
    match module.global_variables.as_slice().get(global.index()) {
        Some(global) => global.space.is_work_group(),
        None => false,
    }
}

/// The output variable lies in a work group.
pub(crate) fn check_variable(module: &Module, mesh: &MeshStageInfo) -> Result<(), EntryPointError>
    ensures { Finds (FirstOf (variable_points «module».now mesh.now)) result }
{
    if !is_in_work_group(module, mesh.output_variable) {
        return Err(EntryPointError::WrongMeshOutputAddressSpace);
    }
    Ok(())
}

/// The override that a global expression is, if it is one.
fn override_at(
    module: &Module,
    expression: Option<Handle<tag::Expression>>,
) -> Option<Handle<tag::Override>>
    ensures { result ≡ override_at «module».now.global_expressions expression }
{
    let Some(expression) = expression else {
        return None;
    };
    let found = module.global_expressions.as_slice().get(expression.index());
    if let Some(Expression::Override(named)) = found {
        Some(*named)
    } else {
        None
    }
}

/// Whether an override that is named is the one that is implied.
fn is_implied(implied: Option<Handle<tag::Override>>, named: Option<Handle<tag::Override>>) -> bool
    ensures { result ≡ is_implied implied named }
{
    match named {
        Some(named) => implied == Some(named),
        None => true,
    }
}

/// What is implied, with the overrides that the entry point names.
fn with_overrides_of(mesh: &MeshStageInfo, implied: &MeshStageInfo) -> MeshStageInfo
    ensures { result ≡ with_overrides_of mesh.now implied.now }
{
    MeshStageInfo {
        max_vertices_override: mesh.max_vertices_override,
        max_primitives_override: mesh.max_primitives_override,
        ..*implied
    }
}

fn is_points(topology: MeshOutputTopology) -> bool
    ensures { result ≡ is_points topology }
{
    matches!(topology, MeshOutputTopology::Points)
}

fn is_same_mesh(implied: &MeshStageInfo, mesh: &MeshStageInfo) -> bool
    ensures { result ≡ is_same_mesh implied.now mesh.now }
{
    *implied == *mesh
}

/// Whether the target has the topology.
fn has_topology(capabilities: Capabilities, topology: MeshOutputTopology) -> bool
    ensures { result ≡ has_topology capabilities topology }
{
    !is_points(topology) || capabilities.contains(Capabilities::MESH_SHADER_POINT_TOPOLOGY)
}

/// What is stated of the mesh, where this is implied, with these overrides of its two numbers: just that; and where it is
/// one of points, the target has these.
pub(crate) fn check_stated(
    capabilities: Capabilities,
    module: &Module,
    overrides: &[Option<Handle<tag::Override>>; 2],
    implied: &MeshStageInfo,
    mesh: &MeshStageInfo,
) -> Result<(), EntryPointError>
    ensures { Finds (FirstOf (stated_points capabilities «module».now overrides.now implied.now mesh.now)) result }
{
    if !is_implied(
        overrides[0],
        override_at(module, mesh.max_vertices_override),
    ) {
        return Err(EntryPointError::BadMeshOutputVariableType);
    }
    if !is_implied(
        overrides[1],
        override_at(module, mesh.max_primitives_override),
    ) {
        return Err(EntryPointError::BadMeshOutputVariableType);
    }
    if !is_same_mesh(&with_overrides_of(mesh, implied), mesh) {
        return Err(EntryPointError::BadMeshOutputVariableType);
    }
    if !has_topology(capabilities, mesh.topology) {
        let required = Capabilities::MESH_SHADER_POINT_TOPOLOGY;
        return Err(EntryPointError::UnsupportedCapability(required));
    }
    Ok(())
}
