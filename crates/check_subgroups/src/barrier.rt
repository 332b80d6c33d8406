//! The check list of ControlBarrier and of MemoryBarrier.

ghost use Rattle.std.specs.Prelude.{◌≡◌};
ghost use Rattle.check_scope.specs.walk.Findings.{RefusesFaultsAlone};
ghost use Rattle.ir_facts.specs.Answers.{Answers, Finds, FirstOf};
ghost use Rattle.check_subgroups.specs.Barrier.{barrier_capabilities, barrier_points};

use crate::subgroup::check_operations;
use bitflags::Flags;
use check_scope::refuse::answer;
use ir_arena::Refused;
use ir_arena::span::Span;
use ir_errors::function::FunctionError;
use ir_facts::valid::settings::Settings;
use ir_flags::capabilities::Capabilities;
use ir_flags::ir::Barrier;
use ir_flags::valid::SubgroupOperationSet;
use std::alloc::Global;

/// ControlBarrier and MemoryBarrier.
pub fn check_barrier(
    alloc: Global,
    settings: &Settings,
    barrier: Barrier,
    span: Span,
) -> Result<(), Refused<FunctionError>>
    ensures fault { Answers (FirstOf (barrier_points settings.now barrier)) result }
    ensures refused { RefusesFaultsAlone (barrier_points settings.now barrier) result }
{
    answer(alloc, check_barrier_points(settings, barrier), span)
}

/// A barrier of a subgroup needs what the target has.
fn check_barrier_points(settings: &Settings, barrier: Barrier) -> Result<(), FunctionError>
    ensures { Finds (FirstOf (barrier_points settings.now barrier)) result }
{
    if !barrier.contains(Barrier::SUB_GROUP) {
        return Ok(());
    }
    let needed = barrier_capabilities();
    if !settings.capabilities.contains(needed) {
        return Err(FunctionError::MissingCapability(needed));
    }
    check_operations(settings, SubgroupOperationSet::BASIC)
}

/// What a barrier of a subgroup needs.
#[tactic(auto, unfolding(bitflags::proofs::OnLiterals::bitflags_on_literals))]
fn barrier_capabilities() -> Capabilities
    ensures { result ≡ barrier_capabilities }
{
    Capabilities::SUBGROUP.union(Capabilities::SUBGROUP_BARRIER)
}
