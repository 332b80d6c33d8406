//! What doesn't fit in a module: the first misfit.

ghost use Rattle.std.specs.Prelude.{◌≡◌, ◌↔◌, ◌∷◌, [], None, Err, IsSome};
ghost use Rattle.ir_arena.specs.Points.{first_fault, points_of_each};
ghost use Rattle.ir_facts.specs.declared.valid.settings.Settings.{Settings};
ghost use Rattle.check_faults.specs.declared.module.ModuleFault.TheVariants as fault;
ghost use Rattle.naga_module.specs.Misfits.{layout_points, info_points, one_info_each, infos_points, module_function_points, entry_point_points, size_points, module_points, AllFits};
ghost use Rattle.naga_module.specs.ModuleJudgement.{IsJudgement};
ghost use Rattle.ir_facts.specs.Answers.{Finds, FirstOf};
ghost use Rattle.ir_misfits.specs.FittingSignatures.{MarkFitting};

use crate::check::Given;
use ir_arena::handle::Handle;
use ir_arena::tag;
use ir_facts::below::Below;
use ir_fits::{check_entry_fits, check_function_fits, check_globals_fit, check_types_fit};
use ir_misfits::misfit::{HandleOf, Misfit, Owner, Place, Problem, VariableField};
use ir_misfits::signature::known_fitting;
use ir_module::functions::Function;
use ir_module::module::{EntryPoint, GlobalVariable, Module};
use ir_types::type_info::{Disalignment, TypeInfo};
use ir_types::typifier::TypeResolution;
use std::alloc::Global;

/// The first misfit of a module: None exactly where all tests of conditions hold that `check_module` may make. Where it is
/// refused memory it answers the same, later.
///
/// The order is that of `check_module`: the infos of types, the types, the globals, each function, the sizes of task
/// payloads, each entry point. Of each the misfit is the first in the order of its `check_.._fits` in `ir_fits`. Where
/// `check_module` answers `NotFit`, this is why. It may also report a misfit after the fault that `check_module` answers.
pub fn find_misfit<B: Below>(
    alloc: Global,
    below: &B,
    given: &Given,
    module: &Module,
) -> Option<Misfit>
    // The answer is the first misfit, in the order of the tests.
    ensures first { result ≡ first_fault (module_points (B.meaning below.now) given.now.types.items «module».now
        given.now.global_types.items) }

    // None is answered exactly where everything fits.
    ensures exact { (result ≡ None) ↔ AllFits (B.meaning below.now) given.now.types.items «module».now
        given.now.global_types.items }

    // Of a module that the judgement answers NotFit of, whatever the settings, a misfit is reported.
    ensures reported { (settings : Settings) → IsJudgement (B.meaning below.now) settings given.now.types.items «module».now
        given.now.global_types.items (Err fault.NotFit) → IsSome result }
{
    let types = given.types.as_slice();
    let global_types = given.global_types.as_slice();
    let marks = known_fitting(alloc, module);
    check_all_fit(below, types, global_types, module, marks.as_slice()).err()
}

/// The first misfit, as an Err.
#[tactic(auto, using(ir_arena::proofs::Points::first_of_both))]
fn check_all_fit<B: Below>(
    below: &B,
    types: &[TypeInfo],
    global_types: &[TypeResolution],
    module: &Module,
    fitting: &[bool],
) -> Result<(), Misfit>
    requires fitting { MarkFitting «module».now fitting.now }
    ensures { Finds (FirstOf (module_points (B.meaning below.now) types.now «module».now
        global_types.now)) result }
{
    check_infos_fit(module, types)?;
    check_types_fit(module)?;
    check_globals_fit(module, global_types)?;
    check_functions_fit(module.functions.as_slice(), module, fitting)?;
    check_sizes(below, module.global_variables.as_slice(), module)?;
    check_entry_points_fit(module.entry_points.as_slice(), module, fitting)
}

/// The type that makes a layout bad is one of so many.
fn check_layout(
    place: Place,
    layout: &Result<u32, (Handle<tag::Type>, Disalignment)>,
    types: usize,
) -> Result<(), Misfit>
    ensures { Finds (FirstOf (layout_points place types layout.now)) result }
{
    match layout {
        Ok(_) => Ok(()),
        Err((ty, _)) => place.names(HandleOf::Types, ty.index(), types),
    }
}

#[tactic(auto, using(ir_arena::proofs::Points::first_of_both))]
fn check_info(place: usize, info: &TypeInfo, types: usize) -> Result<(), Misfit>
    ensures { Finds (FirstOf (info_points types place info.now)) result }
{
    check_layout(Place::StorageLayout(place), &info.storage_layout, types)?;
    check_layout(Place::UniformLayout(place), &info.uniform_layout, types)
}

fn check_each_info(infos: &[TypeInfo], types: usize) -> Result<(), Misfit>
    ensures { Finds (FirstOf (points_of_each (info_points types) infos.now)) result }
{
    for (place, info) in infos.iter().enumerate() {
        check_info(place, info, types)?;
    }
    Ok(())
}

/// There is one info for each type.
fn check_one_info_each(module: &Module, infos: &[TypeInfo]) -> Result<(), Misfit>
    ensures { Finds (FirstOf (one_info_each «module».now infos.now ∷ [])) result }
{
    let found = infos.len();
    let wanted = module.types.len();
    if found == wanted {
        return Ok(());
    }
    Place::TypeInfos.fails(Problem::Length { found, wanted })
}

#[tactic(auto, using(ir_arena::proofs::Points::first_of_both))]
fn check_infos_fit(module: &Module, infos: &[TypeInfo]) -> Result<(), Misfit>
    ensures { Finds (FirstOf (infos_points «module».now infos.now)) result }
{
    check_one_info_each(module, infos)?;
    check_each_info(infos, module.types.len())
}

/// Each function, with the functions before it.
fn check_functions_fit(
    functions: &[Function],
    module: &Module,
    fitting: &[bool],
) -> Result<(), Misfit>
    requires fitting { MarkFitting «module».now fitting.now }
    ensures { Finds (FirstOf (points_of_each (module_function_points «module».now) functions.now)) result }
{
    for (place, fun) in functions.iter().enumerate() {
        check_function_fits(Owner::Function(place), fun, module, fitting, place)?;
    }
    Ok(())
}

fn check_size<B: Below>(
    below: &B,
    place: usize,
    global: &GlobalVariable,
    module: &Module,
) -> Result<(), Misfit>
    ensures { Finds (FirstOf (size_points (B.meaning below.now) «module».now place global.now)) result }
{
    if !global.space.is_task_payload() || below.type_size(module, global.ty).is_some() {
        return Ok(());
    }
    let ty = global.ty.index();
    Place::InGlobal(place, VariableField::Ty).fails(Problem::UnknownSize { ty })
}

/// The size of the type of each global in TaskPayload is known.
fn check_sizes<B: Below>(
    below: &B,
    globals: &[GlobalVariable],
    module: &Module,
) -> Result<(), Misfit>
    ensures { Finds (FirstOf (points_of_each (size_points (B.meaning below.now) «module».now) globals.now)) result }
{
    for (place, global) in globals.iter().enumerate() {
        check_size(below, place, global, module)?;
    }
    Ok(())
}

#[tactic(auto, using(ir_arena::proofs::Points::first_of_both))]
fn check_entry_point_fits(
    place: usize,
    ep: &EntryPoint,
    module: &Module,
    fitting: &[bool],
) -> Result<(), Misfit>
    requires fitting { MarkFitting «module».now fitting.now }
    ensures { Finds (FirstOf (entry_point_points «module».now place ep.now)) result }
{
    let earlier = module.functions.len();
    check_function_fits(
        Owner::EntryPoint(place),
        &ep.function,
        module,
        fitting,
        earlier,
    )?;
    check_entry_fits(place, ep, module)
}

/// Each entry point, with all functions.
fn check_entry_points_fit(
    entries: &[EntryPoint],
    module: &Module,
    fitting: &[bool],
) -> Result<(), Misfit>
    requires fitting { MarkFitting «module».now fitting.now }
    ensures { Finds (FirstOf (points_of_each (entry_point_points «module».now) entries.now)) result }
{
    for (place, ep) in entries.iter().enumerate() {
        check_entry_point_fits(place, ep, module, fitting)?;
    }
    Ok(())
}
