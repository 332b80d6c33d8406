//! The checks of what an entry point puts in and out.

ghost use Rattle.std.specs.Prelude.{◌≡◌, IsTrue, List, None, Option};
ghost use Rattle.std.specs.Option.{option_copied};
ghost use Rattle.ir_arena.specs.Points.{Point, first_fault, within};
ghost use Rattle.ir_module.specs.declared.functions.FunctionResult.{FunctionResult as Declared};
ghost use Rattle.ir_types.specs.declared.types.Type.{«Type» as IrType};
ghost use Rattle.ir_types.specs.TypeTests.{it_is};
ghost use Rattle.ir_leaves.specs.declared.built_in.BuiltIn.TheVariants.{PointIndex, LineIndices, TriangleIndices};
ghost use Rattle.check_varyings.specs.VaryingFaults.{VaryingFault as Given, varying_fault_of};
ghost use Rattle.check_varyings.specs.Varyings.{seen_in};
ghost use Rattle.check_entry.specs.EntryFaults.{OfArgument, OfResult, fault_of};
ghost use Rattle.check_entry.specs.EntryVaryings.{is_three_counts, returns_counts, is_one_of_three, returned_points, are_blend_sources, with_blending};
ghost use Rattle.ir_facts.specs.Answers.{Answers, Finds, FirstOf, IsFirstFault, read_by, refusal_read_by};

use crate::answers::answer;
use check_faults::entry::EntryPointError;
use check_varyings::varying::VaryingState;
use ir_arena::Refused;
use ir_arena::span::Refusal;
use ir_errors::interface::VaryingError;
use ir_facts::valid::info::FunctionInfo;
use ir_leaves::built_in::BuiltIn;
use ir_leaves::scalars::{Scalar, VectorSize};
use ir_leaves::stage::ShaderStage;
use ir_module::functions::FunctionResult;
use ir_module::module::{EntryPoint, Module};
use ir_types::type_info::{TypeInfo, is_shareable};
use ir_types::type_methods::{inner_at, is_struct};
use ir_types::types::TypeInner;
use std::alloc::{AllocError, Global};

/// Whether a type is a vector of three u32.
fn is_three_counts(inner: Option<&TypeInner>) -> bool
    ensures { result ≡ it_is is_three_counts (option_copied inner.entry) }
{
    match inner {
        Some(inner) => *inner
            == TypeInner::Vector {
                size: VectorSize::Tri,
                scalar: Scalar::U32,
            },
        None => false,
    }
}

/// What a stage has to return, where a position is among its outputs or not.
pub(crate) fn check_returned(
    alloc: Global,
    module: &Module,
    stage: ShaderStage,
    position: bool,
    declared: Option<FunctionResult>,
) -> Result<(), Refused<EntryPointError>>
    ensures { Answers (FirstOf (within fault_of (returned_points «module».now.types stage position declared)))
        (read_by fault_of result) }
{
    if returned_holds(stage, position) {
        return Ok(());
    }
    refuse_returned(alloc, module, stage, position, declared)
}

#[cold]
#[inline(never)]
fn refuse_returned(
    alloc: Global,
    module: &Module,
    stage: ShaderStage,
    position: bool,
    declared: Option<FunctionResult>,
) -> Result<(), Refused<EntryPointError>>
    ensures { Answers (FirstOf (within fault_of (returned_points «module».now.types stage position declared)))
        (read_by fault_of result) }
{
    answer(
        alloc,
        first_fault_of_returned(module, stage, position, declared),
    )
}

/// Whether no point of what a stage has to return fails, where this shows at once.
fn returned_holds(stage: ShaderStage, position: bool) -> bool
    ensures { (types : List IrType) (declared : Option Declared) → IsTrue result →
        first_fault (returned_points types stage position declared) ≡ None }
{
    match stage {
        ShaderStage::Vertex => position,
        ShaderStage::Mesh | ShaderStage::Task => false,
        ShaderStage::Fragment
        | ShaderStage::Compute
        | ShaderStage::RayGeneration
        | ShaderStage::AnyHit
        | ShaderStage::ClosestHit
        | ShaderStage::Miss => true,
    }
}

/// The points of what a stage has to return, with the fault of each.
fn first_fault_of_returned(
    module: &Module,
    stage: ShaderStage,
    position: bool,
    declared: Option<FunctionResult>,
) -> Result<(), EntryPointError>
    ensures { Finds (FirstOf (returned_points «module».now.types stage position declared)) result }
{
    match stage {
        ShaderStage::Vertex if !position => Err(EntryPointError::MissingVertexOutputPosition),
        ShaderStage::Mesh if declared.is_some() => Err(
            EntryPointError::UnexpectedMeshShaderEntryResult,
        ),
        ShaderStage::Task if !returns_counts(module, declared) => Err(
            EntryPointError::WrongTaskShaderEntryResult,
        ),
        ShaderStage::Vertex
        | ShaderStage::Fragment
        | ShaderStage::Compute
        | ShaderStage::Mesh
        | ShaderStage::Task
        | ShaderStage::RayGeneration
        | ShaderStage::AnyHit
        | ShaderStage::ClosestHit
        | ShaderStage::Miss => Ok(()),
    }
}

/// Whether a result is three counts.
fn returns_counts(module: &Module, declared: Option<FunctionResult>) -> bool
    ensures { result ≡ returns_counts «module».now.types declared }
{
    match declared {
        Some(declared) => is_three_counts(inner_at(module.types.as_slice(), declared.ty)),
        None => false,
    }
}

/// The refusal of an argument, counted from 0.
#[cold]
#[inline(never)]
pub(crate) fn argument_refused(
    alloc: Global,
    index: u32,
    refused: Refusal<VaryingError>,
) -> Refused<EntryPointError>
    ensures { (points : List (Point Given)) → IsFirstFault points (refusal_read_by varying_fault_of refused) →
        IsFirstFault (within (OfArgument index) points) (refusal_read_by fault_of result) }
{
    match refused {
        Refusal::Fault(fault) => Refused::unplaced(
            alloc,
            EntryPointError::Argument(index, fault.into_inner()),
        ),
        Refusal::Memory => Refused::from(AllocError),
    }
}

/// The refusal of the result, or of an output of a mesh.
#[cold]
#[inline(never)]
pub(crate) fn result_refused(
    alloc: Global,
    refused: Refusal<VaryingError>,
) -> Refused<EntryPointError>
    ensures { (points : List (Point Given)) → IsFirstFault points (refusal_read_by varying_fault_of refused) →
        IsFirstFault (within OfResult points) (refusal_read_by fault_of result) }
{
    match refused {
        Refusal::Fault(fault) => Refused::new(alloc, fault.into_other()),
        Refusal::Memory => Refused::from(AllocError),
    }
}

/// Whether exactly one of the three built-ins of indices is there.
pub(crate) fn has_one_of_indices(state: &VaryingState) -> bool
    ensures { result ≡ is_one_of_three ((seen_in state.now).built_ins PointIndex)
        ((seen_in state.now).built_ins LineIndices) ((seen_in state.now).built_ins TriangleIndices) }
{
    let points = state.has_built_in(BuiltIn::PointIndex);
    let lines = state.has_built_in(BuiltIn::LineIndices);
    let triangles = state.has_built_in(BuiltIn::TriangleIndices);
    match (points, lines, triangles) {
        (true, false, false) | (false, true, false) | (false, false, true) => true,
        _ => false,
    }
}

/// Whether a result is the two sources of a blend: a struct without binding that is shared between stages.
fn are_blend_sources(module: &Module, infos: &[TypeInfo], declared: Option<FunctionResult>) -> bool
    ensures { result ≡ are_blend_sources «module».now.types infos.now declared }
{
    match declared {
        Some(declared) => declared.binding.is_none()
            && is_shareable(infos, declared.ty)
            && is_struct(inner_at(module.types.as_slice(), declared.ty)),
        None => false,
    }
}

/// Says in an info that two sources of a blend are put out, where the result is that.
pub fn set_blending(info: &mut FunctionInfo, ep: &EntryPoint, module: &Module, infos: &[TypeInfo])
    ensures { info.new ≡ with_blending «module».now.types infos.now ep.now info.old }
{
    if are_blend_sources(module, infos, ep.function.result) {
        info.dual_source_blending = true;
    }
}
