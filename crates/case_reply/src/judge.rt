//! The judgement of a case, and the reply to an input.

ghost use Rattle.std.specs.Prelude.{◌≡◌, [], IfOk, IfErr};
ghost use Rattle.naga_module.specs.ModuleLaw.{IsReportedOfFunctions};
ghost use Rattle.case_reply.specs.CaseJudgement.{IsPlainAnswer, flags_of, settings_of, bench_infos, module_of, stages_of_last};
ghost use Rattle.case_reply.specs.Line.{RepliesToCase};
ghost use Rattle.case_notation.specs.Case.{HoldsBlock, case_of};
ghost use Rattle.case_notation.specs.Sayable.{IsSayable};

use crate::bench_module::bench_module;
use crate::line::Reply;
use bitflags::Flags;
use case_notation::case::{Case, CaseError, read_case};
use check_faults::ModuleFault;
use ir_facts::valid::info::{FunctionInfo, ModuleInfo};
use ir_facts::valid::settings::Settings;
use ir_flags::capabilities::Capabilities;
use ir_flags::valid::{ShaderStages, SubgroupOperationSet, TypeFlags, ValidationFlags};
use ir_types::type_info::TypeInfo;
use naga_layers::Plain;
use naga_module::{Given, check_module};
use std::alloc::{AllocError, Global};

/// The flags of a case: all but those that its options take away.
fn flags_of(expressions: bool, blocks: bool) -> ValidationFlags
    ensures { result ≡ flags_of expressions blocks }
{
    let mut flags = ValidationFlags::STRUCT_LAYOUTS.union(ValidationFlags::BINDINGS);
    if expressions {
        flags = flags.union(ValidationFlags::EXPRESSIONS);
    }
    if blocks {
        flags = flags.union(ValidationFlags::BLOCKS);
    }
    flags
}

/// The settings of a case: its flags, for a target with every capability, and with subgroup operations of all groups in all
/// stages.
pub(crate) fn settings_of(case: &Case) -> Settings
    ensures { result ≡ settings_of (case_of case.now) }
{
    Settings {
        flags: flags_of(case.expressions, case.blocks),
        capabilities: Capabilities::ALL,
        subgroup_stages: ShaderStages::ALL,
        subgroup_operations: SubgroupOperationSet::ALL,
    }
}

/// What is known of a type that can be used for everything, and whose layouts are good.
const GOOD: TypeInfo = TypeInfo {
    flags: TypeFlags::ALL,
    storage_layout: Ok(4),
    uniform_layout: Ok(4),
    immediates_compatibility: Ok(()),
};

/// What is known of a bench: its types are good, and it has no global expressions.
pub(crate) fn given(alloc: Global) -> Result<Given, AllocError>
    ensures { IfOk result (λ g. (g.types.items ≡ bench_infos) × (g.global_types.items ≡ [])) }
{
    Ok(Given {
        types: vec![in alloc; GOOD, GOOD, GOOD]?,
        global_types: Vec::new(alloc),
    })
}

/// The judgement of a case: that of its module. A fault is one of a function: the module's parts fit, and it has neither
/// globals nor entry points.
fn judge(alloc: Global, case: Case) -> Result<ModuleInfo, ModuleFault>
    requires block { HoldsBlock case }
    requires sayable { IsSayable case.bench (case_of case).body }
    ensures judged { IsPlainAnswer (settings_of (case_of case)) (module_of (case_of case)) result }
    ensures reported { IfErr result IsReportedOfFunctions }
{
    let settings = settings_of(&case);
    let given = given(alloc)?;
    let module = bench_module(alloc, case.bench, case.body)?;
    check_module(
        alloc,
        Plain::without_mesh_shaders(),
        settings,
        given,
        &module,
    )
}

/// The stages that the last function may run in.
#[tactic(auto, using(crate::proofs::Cases::last_stages))]
pub(crate) fn stages_of_last(infos: &[FunctionInfo]) -> ShaderStages
    ensures { result ≡ stages_of_last infos.now }
{
    match infos.last() {
        Some(info) => info.available_stages,
        None => ShaderStages::empty(),
    }
}

/// The reply to an input.
#[tactic(auto, using(crate::proofs::Cases::replying))]
pub fn reply_to(alloc: Global, input: &[u8]) -> Reply
    ensures { RepliesToCase input.now result }
{
    let case = match read_case(alloc, input) {
        Ok(case) => case,
        Err(CaseError::Unreadable) => return Reply::Unreadable,
        Err(CaseError::Memory) => return Reply::Memory,
    };
    let answer = judge(alloc, case);
    match answer {
        Ok(infos) => Reply::Accepted(stages_of_last(infos.functions.as_slice())),
        Err(ModuleFault::Function(_, fault)) => Reply::Fault(fault.into_inner()),
        Err(ModuleFault::Memory) => Reply::Memory,
        Err(ModuleFault::NotFit | ModuleFault::Global(..) | ModuleFault::EntryPoint(..)) => {
            // Proved: the contract of `judge` says that a fault is one of a function, or out of memory.
            unreachable!()
        }
    }
}
