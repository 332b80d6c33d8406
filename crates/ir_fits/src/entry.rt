//! Whether an entry point fits besides its function, and what doesn't fit of it.

ghost use Rattle.std.specs.Prelude.{◌≢◌, ◌↔◌, IsTrue, All};
ghost use Rattle.ir_arena.specs.Points.{points_of_each};
ghost use Rattle.ir_types.specs.declared.types.AddressSpace.TheVariants as space;
ghost use Rattle.ir_facts.specs.Fits.{MeshFits};
ghost use Rattle.ir_fits.specs.OfEntries.{mesh_points, mesh_points_if, space_points, entry_points};
ghost use Rattle.ir_facts.specs.Answers.{Finds, FirstOf};

use crate::fits::fits_entry;
use ir_misfits::misfit::{EntryField, HandleOf, Misfit, Place, Problem, VariableField};
use ir_misfits::naming::is_below_if_any;
use ir_module::module::{EntryPoint, GlobalVariable, MeshStageInfo, Module};
use ir_types::types::AddressSpace;

/// Whether what the mesh names is there.
pub(crate) fn mesh_fits(info: &MeshStageInfo, module: &Module) -> bool
    ensures { IsTrue result ↔ MeshFits «module».now info.now }
{
    let expressions = module.global_expressions.len();
    is_below_if_any(info.max_vertices_override, expressions)
        && is_below_if_any(info.max_primitives_override, expressions)
        && info.vertex_output_type.index() < module.types.len()
        && info.primitive_output_type.index() < module.types.len()
        && info.output_variable.index() < module.global_variables.len()
}

/// Whether a global may lie in this space: all but `AddressSpace::Function`, which is that of a function's variables.
fn is_of_module(given: AddressSpace) -> bool
    ensures { IsTrue result ↔ (given ≢ space.Function) }
{
    match given {
        AddressSpace::Function => false,
        AddressSpace::Private
        | AddressSpace::WorkGroup
        | AddressSpace::Uniform
        | AddressSpace::Storage { .. }
        | AddressSpace::Handle
        | AddressSpace::Immediate
        | AddressSpace::TaskPayload
        | AddressSpace::RayPayload
        | AddressSpace::IncomingRayPayload => true,
    }
}

/// Whether none of these is in `AddressSpace::Function`.
pub(crate) fn avoid_function_space(globals: &[GlobalVariable]) -> bool
    ensures { IsTrue result ↔ All (λ g. g.space ≢ space.Function) globals.now }
{
    globals.iter().all(|global| is_of_module(global.space))
}

/// The first misfit of the entry point with this index: Ok exactly where `fits_entry` is true.
///
/// In this order: the payload; of its mesh the overrides, the types and the variable; a global in `AddressSpace::Function`.
pub fn check_entry_fits(index: usize, ep: &EntryPoint, module: &Module) -> Result<(), Misfit>
    ensures { Finds (FirstOf (entry_points index ep.now «module».now)) result }
{
    // (asked first for its time: room for a misfit costs more than to see that there is none)
    if fits_entry(ep, module) {
        return Ok(());
    }
    first_misfit_of_entry(index, ep, module)
}

#[cold]
#[inline(never)]
#[tactic(auto, using(ir_arena::proofs::Points::first_of_both))]
fn first_misfit_of_entry(index: usize, ep: &EntryPoint, module: &Module) -> Result<(), Misfit>
    ensures { Finds (FirstOf (entry_points index ep.now «module».now)) result }
{
    Place::InEntryPoint(index, EntryField::TaskPayload).names_if_any(
        HandleOf::GlobalVariables,
        ep.task_payload,
        module.global_variables.len(),
    )?;
    check_mesh_if_any(index, &ep.mesh_info, module)?;
    check_spaces(module.global_variables.as_slice())
}

fn check_mesh_if_any(
    index: usize,
    info: &Option<MeshStageInfo>,
    module: &Module,
) -> Result<(), Misfit>
    ensures { Finds (FirstOf (mesh_points_if «module».now index info.now)) result }
{
    match info {
        Some(info) => check_mesh(index, info, module),
        None => Ok(()),
    }
}

#[tactic(auto, using(ir_arena::proofs::Points::first_of_both))]
fn check_mesh(index: usize, info: &MeshStageInfo, module: &Module) -> Result<(), Misfit>
    ensures { Finds (FirstOf (mesh_points «module».now index info.now)) result }
{
    let expressions = module.global_expressions.len();
    let types = module.types.len();
    Place::InEntryPoint(index, EntryField::MaxVerticesOverride).names_if_any(
        HandleOf::GlobalExpressions,
        info.max_vertices_override,
        expressions,
    )?;
    Place::InEntryPoint(index, EntryField::MaxPrimitivesOverride).names_if_any(
        HandleOf::GlobalExpressions,
        info.max_primitives_override,
        expressions,
    )?;
    Place::InEntryPoint(index, EntryField::VertexOutputType).names(
        HandleOf::Types,
        info.vertex_output_type.index(),
        types,
    )?;
    Place::InEntryPoint(index, EntryField::PrimitiveOutputType).names(
        HandleOf::Types,
        info.primitive_output_type.index(),
        types,
    )?;
    Place::InEntryPoint(index, EntryField::OutputVariable).names(
        HandleOf::GlobalVariables,
        info.output_variable.index(),
        module.global_variables.len(),
    )
}

/// The global with this handle doesn't lie in the space Function.
fn check_space(place: usize, global: &GlobalVariable) -> Result<(), Misfit>
    ensures { Finds (FirstOf (space_points place global.now)) result }
{
    match global.space {
        AddressSpace::Function => {
            Place::InGlobal(place, VariableField::Space).fails(Problem::InFunctionSpace)
        }
        AddressSpace::Private
        | AddressSpace::WorkGroup
        | AddressSpace::Uniform
        | AddressSpace::Storage { .. }
        | AddressSpace::Handle
        | AddressSpace::Immediate
        | AddressSpace::TaskPayload
        | AddressSpace::RayPayload
        | AddressSpace::IncomingRayPayload => Ok(()),
    }
}

fn check_spaces(globals: &[GlobalVariable]) -> Result<(), Misfit>
    ensures { Finds (FirstOf (points_of_each space_points globals.now)) result }
{
    for (place, global) in globals.iter().enumerate() {
        check_space(place, global)?;
    }
    Ok(())
}
