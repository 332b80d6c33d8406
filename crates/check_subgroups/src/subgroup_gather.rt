//! The check list of SubgroupGather.

ghost use Rattle.std.specs.Prelude.{◌≡◌, ◌<◌, ◌∷◌, [], OnOk, Some};
ghost use Rattle.std.specs.Option.{option_copied};
ghost use Rattle.check_scope.specs.walk.Findings.{RefusesFaultsAlone};
ghost use Rattle.ir_facts.specs.Answers.{Answers, Finds, FirstOf};
ghost use Rattle.check_scope.specs.walk.Place.{place_at};
ghost use Rattle.check_subgroups.specs.walk.SubgroupParts.{indexed_points, gathered_points};
ghost use Rattle.check_scope.specs.walk.SeenContext.{context_of};
ghost use Rattle.check_subgroups.specs.SubgroupGather.{index_of, is_broadcast, is_const_at, index_points, is_gathered, gather_points};
ghost use Rattle.check_scope.specs.walk.Table.{HasPut, count, known};

use crate::subgroup::{check_combined, check_operations, check_subgroups, is_number_kind};
use check_scope::context::BlockContext;
use check_scope::refuse::{answer, check_use};
use check_scope::table::ScopeColumn;
use check_scope::types::is_scalar;
use ir_arena::handle::Handle;
use ir_arena::span::Span;
use ir_arena::{Refused, tag};
use ir_errors::function::{FunctionError, SubgroupError};
use ir_leaves::scalars::Scalar;
use ir_statements::operations::GatherMode;
use ir_types::types::TypeInner;

/// SubgroupGather: its index, its argument, and its result, which is in scope afterwards.
pub fn validate_gather(
    scope: &mut ScopeColumn,
    context: &BlockContext,
    mode: &GatherMode,
    argument: Handle<tag::Expression>,
    gathered: Handle<tag::Expression>,
    span: Span,
) -> Result<(), Refused<FunctionError>>
    requires { gathered < count scope.old }
    ensures fault { Answers
        (FirstOf (gather_points (context_of context.now) (place_at (known scope.old)) mode.now argument gathered))
        result }
    ensures refused { RefusesFaultsAlone
        (gather_points (context_of context.now) (place_at (known scope.old)) mode.now argument gathered)
        result }
    ensures scope { OnOk result (HasPut scope.old scope.new (gathered ∷ [])) }
{
    let alloc = scope.allocator();
    let checked = check_gather(scope, context, mode, argument, gathered);
    answer(alloc, checked, span)?;
    scope.put(gathered);
    Ok(())
}

/// All that is checked of a gather. Its result stays out of scope.
#[tactic(auto, using(ir_arena::proofs::Points::first_of_both))]
fn check_gather(
    scope: &ScopeColumn,
    context: &BlockContext,
    mode: &GatherMode,
    argument: Handle<tag::Expression>,
    gathered: Handle<tag::Expression>,
) -> Result<(), FunctionError>
    ensures { Finds (FirstOf (gather_points (context_of context.now) (place_at (known scope.now)) mode.now argument
        gathered)) result }
{
    check_subgroups(&context.settings)?;
    check_operations(&context.settings, mode.required_operations())?;
    check_indexed(scope, context, mode, argument, gathered)
}

/// The index, the argument and the result.
#[tactic(auto, using(ir_arena::proofs::Points::first_of_both))]
fn check_indexed(
    scope: &ScopeColumn,
    context: &BlockContext,
    mode: &GatherMode,
    argument: Handle<tag::Expression>,
    gathered: Handle<tag::Expression>,
) -> Result<(), FunctionError>
    ensures { Finds (FirstOf (indexed_points (context_of context.now) (place_at (known scope.now)) mode.now argument
        gathered)) result }
{
    if let Some(index) = index_of(mode) {
        check_index(scope, context, is_broadcast(mode), argument, index)?;
    }
    check_gathered(scope, context, argument, gathered)
}

/// The index of a gather, if its mode has one.
fn index_of(mode: &GatherMode) -> Option<Handle<tag::Expression>>
    ensures { result ≡ index_of mode.now }
{
    match mode {
        GatherMode::BroadcastFirst | GatherMode::QuadSwap(_) => None,
        GatherMode::Broadcast(index)
        | GatherMode::Shuffle(index)
        | GatherMode::ShuffleDown(index)
        | GatherMode::ShuffleUp(index)
        | GatherMode::ShuffleXor(index)
        | GatherMode::QuadBroadcast(index) => Some(*index),
    }
}

/// Whether all take the value of one invocation, which is known as the module is made.
fn is_broadcast(mode: &GatherMode) -> bool
    ensures { result ≡ is_broadcast mode.now }
{
    matches!(
        mode,
        GatherMode::Broadcast(_) | GatherMode::QuadBroadcast(_)
    )
}

/// The index: emitted by every run, a u32, and in a broadcast const. A fault of its type names the argument, as in
/// naga.
fn check_index(
    scope: &ScopeColumn,
    context: &BlockContext,
    broadcasts: bool,
    argument: Handle<tag::Expression>,
    index: Handle<tag::Expression>,
) -> Result<(), FunctionError>
    ensures { Finds (FirstOf (index_points (context_of context.now) (place_at (known scope.now)) broadcasts argument
        (Some index))) result }
{
    check_use(scope, index)?;
    if !is_scalar(Scalar::U32, context.type_inner(index)) {
        let error = SubgroupError::InvalidOperand(argument);
        return Err(FunctionError::InvalidSubgroup(error));
    }
    if broadcasts && !is_const_at(context, index) {
        let error = SubgroupError::InvalidInvocationIdExprType(index);
        return Err(FunctionError::InvalidSubgroup(error));
    }
    Ok(())
}

/// Whether the value of an expression is known as the module is made.
fn is_const_at(context: &BlockContext, handle: Handle<tag::Expression>) -> bool
    ensures { result ≡ is_const_at (context_of context.now) handle }
{
    handle.index() < context.kinds.len() && context.kinds.is_const(handle)
}

/// The argument, then the result.
fn check_gathered(
    scope: &ScopeColumn,
    context: &BlockContext,
    argument: Handle<tag::Expression>,
    gathered: Handle<tag::Expression>,
) -> Result<(), FunctionError>
    ensures { Finds (FirstOf (gathered_points (context_of context.now) (place_at (known scope.now)) argument
        gathered)) result }
{
    check_use(scope, argument)?;
    if !is_gathered(context.type_inner(argument)) {
        let error = SubgroupError::InvalidOperand(argument);
        return Err(FunctionError::InvalidSubgroup(error));
    }
    check_combined(scope, context, argument, gathered)
}

/// Whether a type is a number, or a vector of numbers.
fn is_gathered(inner: Option<&TypeInner>) -> bool
    ensures { result ≡ is_gathered (option_copied inner.entry) }
{
    match inner {
        Some(TypeInner::Scalar(scalar) | TypeInner::Vector { scalar, .. }) => {
            is_number_kind(scalar.kind)
        }
        _ => false,
    }
}
