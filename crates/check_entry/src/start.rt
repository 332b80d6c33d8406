//! The checks of an entry point up to its function: naga's `validate_entry_point` before it calls `validate_function`.

ghost use Rattle.std.specs.Prelude.{◌≡◌, IsTrue, None};
ghost use Rattle.ir_arena.specs.Points.{first_fault};
ghost use Rattle.ir_flags.specs.declared.capabilities.Capabilities.{Capabilities as Target};
ghost use Rattle.std.specs.List.{list_all};
ghost use Rattle.check_entry.specs.Start.{needed_by, needed_points, is_fragment, depth_points, has_work_groups, is_group_size, is_zero, size_points, mesh_info_points, start_points};
ghost use Rattle.ir_facts.specs.Answers.{Finds, FirstOf};

use check_faults::entry::EntryPointError;
use ir_errors::interface::VaryingError;
use ir_flags::capabilities::Capabilities;
use ir_leaves::stage::ShaderStage;
use ir_module::module::{EarlyDepthTest, EntryPoint, MeshStageInfo};

/// The most invocations that a work group has along a dimension.
const MAX_WORKGROUP_SIZE: u32 = 16384;

/// Whether no point up to the function fails, where this shows at once: the stage needs no capability, and no early depth test
/// and no mesh is given.
#[tactic(auto, using(crate::proofs::Starts::start_all_holds))]
pub fn start_holds(ep: &EntryPoint) -> bool
    ensures { (capabilities : Target) → IsTrue result → first_fault (start_points capabilities ep.now) ≡ None }
{
    needed_by(ep.stage).is_none()
        && ep.early_depth_test.is_none()
        && size_holds(ep.stage, &ep.workgroup_size)
        && ep.mesh_info.is_none()
}

fn size_holds(stage: ShaderStage, size: &[u32]) -> bool
    ensures { IsTrue result → first_fault (size_points stage size.now) ≡ None }
{
    if has_work_groups(stage) {
        are_group_sizes(size)
    } else {
        are_zero(size)
    }
}

/// What the stage needs, the early depth test, the size of a work group, and whether something is said of a mesh.
#[cold]
#[inline(never)]
#[tactic(auto, using(crate::proofs::EntrySteps::finding))]
pub fn check_start(capabilities: Capabilities, ep: &EntryPoint) -> Result<(), EntryPointError>
    ensures { Finds (FirstOf (start_points capabilities ep.now)) result }
{
    check_needed(capabilities, needed_by(ep.stage))?;
    check_depth_test(capabilities, ep.stage, ep.early_depth_test)?;
    check_workgroup_size(ep.stage, &ep.workgroup_size)?;
    check_mesh_info(ep.stage, ep.mesh_info)
}

/// What the target must have for a stage.
fn needed_by(stage: ShaderStage) -> Option<Capabilities>
    ensures { result ≡ needed_by stage }
{
    match stage {
        ShaderStage::Task | ShaderStage::Mesh => Some(Capabilities::MESH_SHADER),
        ShaderStage::RayGeneration
        | ShaderStage::AnyHit
        | ShaderStage::ClosestHit
        | ShaderStage::Miss => Some(Capabilities::RAY_TRACING_PIPELINE),
        ShaderStage::Vertex | ShaderStage::Fragment | ShaderStage::Compute => None,
    }
}

fn check_needed(
    capabilities: Capabilities,
    needed: Option<Capabilities>,
) -> Result<(), EntryPointError>
    ensures { Finds (FirstOf (needed_points capabilities needed)) result }
{
    match needed {
        Some(some) if !capabilities.contains(some) => Err(EntryPointError::UnsupportedCapability(
            some,
        )),
        _ => Ok(()),
    }
}

/// An early depth test, if one is asked for: the target has them, and the stage is the fragment's.
fn check_depth_test(
    capabilities: Capabilities,
    stage: ShaderStage,
    test: Option<EarlyDepthTest>,
) -> Result<(), EntryPointError>
    ensures { Finds (FirstOf (depth_points capabilities stage test)) result }
{
    if test.is_none() {
        return Ok(());
    }
    let required = Capabilities::EARLY_DEPTH_TEST;
    if !capabilities.contains(required) {
        return Err(EntryPointError::Result(VaryingError::UnsupportedCapability(required)));
    }
    if !is_fragment(stage) {
        return Err(EntryPointError::UnexpectedEarlyDepthTest);
    }
    Ok(())
}

fn is_fragment(stage: ShaderStage) -> bool
    ensures { result ≡ is_fragment stage }
{
    matches!(stage, ShaderStage::Fragment)
}

/// Whether a stage runs in work groups.
fn has_work_groups(stage: ShaderStage) -> bool
    ensures { result ≡ has_work_groups stage }
{
    match stage {
        ShaderStage::Compute | ShaderStage::Task | ShaderStage::Mesh => true,
        ShaderStage::Vertex
        | ShaderStage::Fragment
        | ShaderStage::RayGeneration
        | ShaderStage::AnyHit
        | ShaderStage::ClosestHit
        | ShaderStage::Miss => false,
    }
}

fn is_group_size(size: u32) -> bool
    ensures { result ≡ is_group_size size }
{
    1 <= size && size <= MAX_WORKGROUP_SIZE
}

fn are_group_sizes(size: &[u32]) -> bool
    ensures { result ≡ list_all is_group_size size.now }
{
    size.iter().all(|n| is_group_size(*n))
}

fn are_zero(size: &[u32]) -> bool
    ensures { result ≡ list_all is_zero size.now }
{
    size.iter().all(|n| *n == 0)
}

/// The invocations of a work group along each dimension; 0 at a stage without work groups.
fn check_workgroup_size(stage: ShaderStage, size: &[u32]) -> Result<(), EntryPointError>
    ensures { Finds (FirstOf (size_points stage size.now)) result }
{
    if has_work_groups(stage) {
        if !are_group_sizes(size) {
            return Err(EntryPointError::OutOfRangeWorkgroupSize);
        }
        return Ok(());
    }
    if !are_zero(size) {
        return Err(EntryPointError::UnexpectedWorkgroupSize);
    }
    Ok(())
}

/// What is said of a mesh: something at the mesh stage, nothing at others.
fn check_mesh_info(stage: ShaderStage, info: Option<MeshStageInfo>) -> Result<(), EntryPointError>
    ensures { Finds (FirstOf (mesh_info_points stage info)) result }
{
    match stage {
        ShaderStage::Mesh => if info.is_none() {
            return Err(EntryPointError::ExpectedMeshShaderAttributes);
        },
        ShaderStage::Vertex
        | ShaderStage::Fragment
        | ShaderStage::Compute
        | ShaderStage::Task
        | ShaderStage::RayGeneration
        | ShaderStage::AnyHit
        | ShaderStage::ClosestHit
        | ShaderStage::Miss => if info.is_some() {
            return Err(EntryPointError::UnexpectedMeshShaderAttributes);
        },
    }
    Ok(())
}
