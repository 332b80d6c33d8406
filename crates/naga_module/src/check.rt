//! The judgement of a whole module.

ghost use Rattle.std.specs.Prelude.{◌≡◌, ◌↔◌, [], Err, true, IsTrue, IfOk, OnOk};
ghost use Rattle.naga_module.specs.ModuleJudgement.{Fits, first_infos, IsJudgementOrMemory};
ghost use Rattle.naga_module.specs.ModuleInfos.{ModuleIsJudged};
ghost use Rattle.naga_module.specs.ModuleLaw.{ModuleHolds, ModuleFillsOnce, ModuleBindsApart};
ghost use Rattle.check_faults.specs.declared.module.ModuleFault.TheVariants as fault;
ghost use Rattle.check_entry.specs.GivenInfos.{AreInfosOf};
ghost use Rattle.check_statement.specs.ValidatorParts.{no_traces};
ghost use Rattle.ir_facts.specs.Fits.{FitsTypes, FitsGlobals};
ghost use Rattle.ir_facts.specs.WhatIsChecked.{checks_blocks, checks_expressions, checks_bindings};

mod entries;
mod functions;
mod globals;

use crate::check::entries::validate_entry_points;
use crate::check::functions::validate_functions;
use crate::check::globals::validate_globals;
use check_faults::module::ModuleFault;
use ir_arena::handle::Handle;
use ir_arena::sequence::Sequence;
use ir_arena::span::WithSpan;
use ir_arena::tag;
use ir_errors::function::FunctionError;
use ir_errors::interface::GlobalVariableError;
use ir_facts::below::Below;
use ir_facts::valid::info::ModuleInfo;
use ir_facts::valid::settings::Settings;
use ir_fits::{fits_globals, fits_types};
use ir_misfits::signature::known_fitting;
use ir_module::module::Module;
use ir_types::type_info::TypeInfo;
use ir_types::typifier::TypeResolution;
use naga_valid::Validator;
use std::alloc::{AllocError, Global};

/// What lower layers know of a module's types and of its global expressions.
#[derive(Drop)]
pub struct Given {
    /// One info for each type of the module, indexed by its handle.
    pub types: Vec<TypeInfo>,
    /// The type of each global expression of the module, indexed by its handle.
    pub global_types: Vec<TypeResolution>,
}

/// A validator with these settings and type infos that has seen no function yet.
fn validator_with<B: Below + Drop>(
    below: B,
    settings: Settings,
    types: Vec<TypeInfo>,
) -> Validator<B>
    ensures { result ≡ record { below = below; settings = settings; types = types.items; trace = no_traces } }
{
    let mut validator = Validator::new(below, settings.flags, settings.capabilities).with_types(
        types,
    );
    validator.subgroup_stages(settings.subgroup_stages);
    validator.subgroup_operations(settings.subgroup_operations);
    validator
}

/// The infos of a module before anything of it is judged.
fn first_infos(alloc: Global, global_types: Vec<TypeResolution>) -> ModuleInfo
    ensures { result ≡ first_infos global_types.items }
{
    ModuleInfo {
        functions: Sequence::new(alloc),
        entry_points: Sequence::new(alloc),
        global_types: Sequence::from(global_types),
    }
}

/// Whether what a module's types and globals name is there, and the infos are those of its types and global
/// expressions.
fn fits<B: Below>(validator: &Validator<B>, module: &Module, infos: &ModuleInfo) -> bool
    ensures { IsTrue result ↔
        (AreInfosOf «module».now validator.now.types × FitsTypes «module».now × FitsGlobals «module».now infos.now) }
{
    validator.has_types_of(module) && fits_types(module) && fits_globals(module, infos)
}

/// Judges a whole module over a lower layer, with these settings. Answers the infos of all functions and entry points.
///
/// An Err is the first fault in this order, or out of memory:
/// 1. The type infos, the types and the globals fit: `NotFit`. These are the three first tests.
/// 2. Each global variable: `Global`.
/// 3. Each function: it fits (`NotFit`), and then its own faults (`Function`), with the infos of earlier functions.
/// 4. The size of each task payload is known: `NotFit`.
/// 5. Each entry point: it fits (`NotFit`), and then its own faults (`EntryPoint`), with the infos of all functions.
///
/// `given` has the infos of the module's types and the types of its global expressions. What ray traces leave goes
/// from each function and entry point to the next. In naga this is the order of the module's validator,
/// `Validator::validate`.
///
/// With BLOCKS, and if the steps before the body pass, `NotInScope` of a body without dead code, for a use or an
/// argument of a call, says that some run uses what isn't live; a refused jump, that some run is stuck by it:
/// `witnessed` and `stuck` of `function_law` in `naga_valid`. A lower layer may answer `NotInScope` itself; the
/// law makes no claim about that.
pub fn check_module<B: Below + Drop>(
    alloc: Global,
    below: B,
    settings: Settings,
    given: Given,
    module: &Module,
) -> Result<ModuleInfo, ModuleFault>
    // The answer is the judgement of the module, or out of memory.
    ensures judged { IsJudgementOrMemory (B.meaning below) settings given.types.items «module».now
        given.global_types.items result }

    // What fails one of the three first tests is answered as NotFit, and never as out of memory.
    ensures fits { (Fits (B.meaning below) settings given.types.items «module».now given.global_types.items → ⊥) →
        result ≡ Err fault.NotFit }

    // Of an accepted module there is one info for each function and each entry point: the answer of its own judgement with
    // the infos before it. So the infos are vetted, at the end and before each entry point. The built-ins of an entry
    // point's arguments are distinct, and at the vertex stage it returns a position.
    ensures infos { IfOk result (λ infos. ModuleIsJudged (B.meaning below) settings given.types.items «module».now infos) }

    // With BLOCKS all runs of the bodies of an accepted module are sound, and each entry point keeps to its stage
    // through all chains of calls. No Return stands in a continuing part, each Switch has whole cases, and the stages of
    // an info are stages of each statement and of each function that is called.
    ensures holds { IfOk result (λ infos. checks_blocks settings.flags ≡ true →
        ModuleHolds (B.meaning below) settings given.types.items «module».now infos) }

    // With BLOCKS and EXPRESSIONS each CallResult of an accepted module is filled once, by a Call of its function, and each
    // AtomicResult once, by an Atomic.
    ensures filled { OnOk result (checks_blocks settings.flags ≡ true → checks_expressions settings.flags ≡ true →
        ModuleFillsOnce «module».now) }

    // With BINDINGS no two globals that an entry point of an accepted module uses have one binding, and no two parts of a
    // group of its inputs or outputs take one location.
    ensures bindings { IfOk result (λ infos. checks_bindings settings.flags ≡ true →
        ModuleBindsApart settings given.types.items «module».now infos) }
{
    let Given {
        types,
        global_types,
    } = given;
    let mut validator = validator_with(below, settings, types);
    let mut infos = first_infos(alloc, global_types);
    if !fits(&validator, module, &infos) {
        return Err(ModuleFault::NotFit);
    }
    validate_globals(alloc, &validator, module, &infos)?;
    let marks = known_fitting(alloc, module);
    let fitting = marks.as_slice();
    validate_functions(alloc, &mut validator, module, fitting, &mut infos)?;
    if !validator.has_payload_sizes(module) {
        return Err(ModuleFault::NotFit);
    }
    validate_entry_points(alloc, &mut validator, module, fitting, &mut infos)?;
    Ok(infos)
}
