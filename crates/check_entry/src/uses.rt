//! The task payload of an entry point, what the entry point itself does with globals, and its stage.

ghost use Rattle.std.specs.Prelude.{◌≡◌, ◌<◌, IfSome, IsTrue, List, None, length};
ghost use Rattle.ir_arena.specs.Points.{first_fault, within};
ghost use Rattle.ir_module.specs.declared.module.GlobalVariable.{GlobalVariable as Variable};
ghost use Rattle.check_entry.specs.EntryFaults.{fault_of};
ghost use Rattle.ir_types.specs.SpaceTests.{is_task_payload};
ghost use Rattle.check_entry.specs.EntryUses.{lies_in, place_points, made_points, taken_points, payload_points, with_use_of, output_variable_of, with_own_uses, only, stage_points};
ghost use Rattle.ir_facts.specs.Answers.{Answers, Finds, FirstOf, read_by};

use crate::answers::answer;
use bitflags::Flags;
use check_faults::entry::EntryPointError;
use ir_arena::handle::Handle;
use ir_arena::{Refused, tag};
use ir_facts::valid::info::FunctionInfo;
use ir_flags::valid::{GlobalUse, ShaderStages};
use ir_leaves::stage::ShaderStage;
use ir_module::module::{EntryPoint, MeshStageInfo, Module};
use std::alloc::Global;

/// The task payload: the task stage has one, the mesh stage may have one, others have none; and it lies in its space.
pub fn check_payload(
    alloc: Global,
    module: &Module,
    ep: &EntryPoint,
) -> Result<(), Refused<EntryPointError>>
    ensures { Answers (FirstOf (within fault_of (payload_points «module».now.global_variables ep.now.stage
        ep.now.task_payload))) (read_by fault_of result) }
{
    if payload_holds(ep) {
        return Ok(());
    }
    refuse_payload(alloc, module, ep)
}

/// Whether no point of the payload fails, where this shows at once: the stage has none.
fn payload_holds(ep: &EntryPoint) -> bool
    ensures { (globals : List Variable) → IsTrue result →
        first_fault (payload_points globals ep.now.stage ep.now.task_payload) ≡ None }
{
    match ep.stage {
        ShaderStage::Vertex
        | ShaderStage::Fragment
        | ShaderStage::Compute
        | ShaderStage::RayGeneration
        | ShaderStage::AnyHit
        | ShaderStage::ClosestHit
        | ShaderStage::Miss => ep.task_payload.is_none(),
        ShaderStage::Task | ShaderStage::Mesh => false,
    }
}

#[cold]
#[inline(never)]
fn refuse_payload(
    alloc: Global,
    module: &Module,
    ep: &EntryPoint,
) -> Result<(), Refused<EntryPointError>>
    ensures { Answers (FirstOf (within fault_of (payload_points «module».now.global_variables ep.now.stage
        ep.now.task_payload))) (read_by fault_of result) }
{
    answer(alloc, first_fault_of_payload(module, ep))
}

/// The points of the payload, with the fault of each.
fn first_fault_of_payload(module: &Module, ep: &EntryPoint) -> Result<(), EntryPointError>
    ensures { Finds (FirstOf (payload_points «module».now.global_variables ep.now.stage ep.now.task_payload)) result }
{
    match ep.stage {
        ShaderStage::Task => check_made(module, ep.task_payload),
        ShaderStage::Mesh => check_taken(module, ep.task_payload),
        ShaderStage::Vertex
        | ShaderStage::Fragment
        | ShaderStage::Compute
        | ShaderStage::RayGeneration
        | ShaderStage::AnyHit
        | ShaderStage::ClosestHit
        | ShaderStage::Miss => match ep.task_payload {
            Some(_) => Err(EntryPointError::UnexpectedTaskPayload),
            None => Ok(()),
        },
    }
}

fn check_made(
    module: &Module,
    payload: Option<Handle<tag::GlobalVariable>>,
) -> Result<(), EntryPointError>
    ensures { Finds (FirstOf (made_points «module».now.global_variables payload)) result }
{
    match payload {
        Some(payload) => check_place(module, payload),
        None => Err(EntryPointError::ExpectedTaskPayload),
    }
}

fn check_taken(
    module: &Module,
    payload: Option<Handle<tag::GlobalVariable>>,
) -> Result<(), EntryPointError>
    ensures { Finds (FirstOf (taken_points «module».now.global_variables payload)) result }
{
    match payload {
        Some(payload) => check_place(module, payload),
        None => Ok(()),
    }
}

/// A payload lies in its space.
fn check_place(module: &Module, payload: Handle<tag::GlobalVariable>) -> Result<(), EntryPointError>
    ensures { Finds (FirstOf (place_points «module».now.global_variables payload)) result }
{
    if !is_payload(module, payload) {
        return Err(EntryPointError::TaskPayloadWrongAddressSpace);
    }
    Ok(())
}

fn is_payload(module: &Module, global: Handle<tag::GlobalVariable>) -> bool
    ensures { result ≡ lies_in is_task_payload «module».now.global_variables global }
{
    match module.global_variables.as_slice().get(global.index()) {
        Some(global) => global.space.is_task_payload(),
        None => false,
    }
}

/// Joins what the entry point itself does with globals to what its function does: the task stage reads and writes its
/// payload; the mesh stage reads its payload and its output variable.
pub fn insert_own_uses(info: &mut FunctionInfo, ep: &EntryPoint)
    requires payload { IfSome ep.now.task_payload (λ h. h < length info.old.global_uses) }
    requires mesh { IfSome (output_variable_of ep.now.mesh_info) (λ h. h < length info.old.global_uses) }
    ensures { info.new ≡ with_own_uses ep.now info.old }
{
    match ep.stage {
        ShaderStage::Task => insert_use(
            info,
            ep.task_payload,
            GlobalUse::READ.union(GlobalUse::WRITE),
        ),
        ShaderStage::Mesh => {
            insert_use(info, ep.task_payload, GlobalUse::READ);
            insert_use(info, output_variable_of(ep.mesh_info), GlobalUse::READ);
        }
        ShaderStage::Vertex
        | ShaderStage::Fragment
        | ShaderStage::Compute
        | ShaderStage::RayGeneration
        | ShaderStage::AnyHit
        | ShaderStage::ClosestHit
        | ShaderStage::Miss => {}
    }
}

fn output_variable_of(mesh: Option<MeshStageInfo>) -> Option<Handle<tag::GlobalVariable>>
    ensures { result ≡ output_variable_of mesh }
{
    match mesh {
        Some(mesh) => Some(mesh.output_variable),
        None => None,
    }
}

/// Joins a use to those of a global, if one is named.
fn insert_use(info: &mut FunctionInfo, global: Option<Handle<tag::GlobalVariable>>, more: GlobalUse)
    requires { IfSome global (λ h. h < length info.old.global_uses) }
    ensures joined { info.new ≡ with_use_of global more info.old }
    ensures count { length info.new.global_uses ≡ length info.old.global_uses }
{
    if let Some(global) = global {
        info.insert_global_use(more, global);
    }
}

/// The stage, as the set that has it alone.
fn only(stage: ShaderStage) -> ShaderStages
    ensures { result ≡ only stage }
{
    match stage {
        ShaderStage::Vertex => ShaderStages::VERTEX,
        ShaderStage::Fragment => ShaderStages::FRAGMENT,
        ShaderStage::Compute => ShaderStages::COMPUTE,
        ShaderStage::Mesh => ShaderStages::MESH,
        ShaderStage::Task => ShaderStages::TASK,
        ShaderStage::RayGeneration => ShaderStages::RAY_GENERATION,
        ShaderStage::AnyHit => ShaderStages::ANY_HIT,
        ShaderStage::ClosestHit => ShaderStages::CLOSEST_HIT,
        ShaderStage::Miss => ShaderStages::MISS,
    }
}

/// What the function does is for this stage.
pub(crate) fn check_stage(
    alloc: Global,
    stage: ShaderStage,
    available: ShaderStages,
) -> Result<(), Refused<EntryPointError>>
    ensures { Answers (FirstOf (within fault_of (stage_points stage available))) (read_by fault_of result) }
{
    if !available.contains(only(stage)) {
        return Err(Refused::unplaced(alloc, EntryPointError::ForbiddenStageOperations));
    }
    Ok(())
}
