//! A statement itself, without its parts; and a break condition.

ghost use Rattle.std.specs.Prelude.{◌≡◌, true, IfOk, OnOk};
ghost use Rattle.naga_runs.specs.declared.Abilities.{Abilities};
ghost use Rattle.check_scope.specs.walk.Findings.{RefusesFaultsAlone};
ghost use Rattle.ir_facts.specs.Answers.{Answers, FirstOf};
ghost use Rattle.check_scope.specs.BodyTrees.{tree_of};
ghost use Rattle.check_scope.specs.Context.{ContextFits};
ghost use Rattle.check_flow.specs.Control.{break_if_points};
ghost use Rattle.check_statement.specs.Ready.{IsStatementReady};
ghost use Rattle.check_statement.specs.Rules.{statement_points};
ghost use Rattle.check_scope.specs.walk.Place.{place_at};
ghost use Rattle.check_scope.specs.walk.SeenContext.{context_of};
ghost use Rattle.check_statement.specs.walk.Frequent.{is_frequent, is_whole};
ghost use Rattle.check_statement.specs.walk.State.{kept, seen, with_statement};
ghost use Rattle.check_statement.specs.walk.Walk.{puts};
ghost use Rattle.check_flow.specs.walk.Emitted.{place};
ghost use Rattle.check_scope.specs.walk.Table.{HasPut, IsTableOf, known};

use crate::stages::callee_stages;
use crate::state::{BodyOutcome, fill_named};
use bitflags::Flags;
use check_flow::call::{CallSite, validate_call};
use check_flow::{control, emit};
use check_memory::store::check_store;
use check_scope::context::BlockContext;
use check_scope::table::{ScopeColumn, Table};
use ir_arena::handle::Handle;
use ir_arena::span::Span;
use ir_arena::{Refused, tag};
use ir_errors::function::FunctionError;
use ir_flags::valid::ShaderStages;
use ir_statements::statements::{Located, Statement};

/// Whether a statement is of a kind that bodies have most, or of one of which nothing but its parts is checked.
pub fn is_frequent(statement: &Statement) -> bool
    ensures { result ≡ is_frequent statement.now }
{
    match statement {
        Statement::Emit(_)
        | Statement::Block(_)
        | Statement::If { .. }
        | Statement::Loop { .. }
        | Statement::Kill
        | Statement::Store { .. }
        | Statement::Call { .. } => true,
        Statement::Switch { .. }
        | Statement::Break
        | Statement::Continue
        | Statement::Return { .. }
        | Statement::ControlBarrier(_)
        | Statement::MemoryBarrier(_)
        | Statement::ImageStore { .. }
        | Statement::Atomic { .. }
        | Statement::ImageAtomic { .. }
        | Statement::WorkGroupUniformLoad { .. }
        | Statement::RayQuery { .. }
        | Statement::SubgroupBallot { .. }
        | Statement::SubgroupCollectiveOperation { .. }
        | Statement::SubgroupGather { .. }
        | Statement::CooperativeStore { .. }
        | Statement::RayPipelineFunction(_) => false,
    }
}

/// A statement of such a kind itself: its check list, what it puts, which is in scope afterwards, and what it leaves; its
/// parts are left out. Answers whether that is all of it: true for Emit, Store, Call and Kill.
pub fn validate_frequent(
    table: &mut Table,
    state: &mut BodyOutcome,
    context: &BlockContext,
    located: &Located,
) -> Result<bool, Refused<FunctionError>>
    requires context { ContextFits (context_of context.now) }
    requires statement { IsStatementReady (context_of context.now) (tree_of (context_of context.now) located.now) }
    requires kind { is_frequent located.now.statement ≡ true }
    requires table { IsTableOf (context_of context.now) table.old }
    ensures fault { (abilities : Abilities) → Answers
        (FirstOf (statement_points (context_of context.now) (seen (kept table.old.filled state.old))
        (place abilities (known table.old.scope)) (tree_of (context_of context.now) located.now)))
        result }
    ensures scope { OnOk result (HasPut table.old.scope table.new.scope (puts (tree_of (context_of context.now) located.now))) }
    ensures state { OnOk result (kept table.new.filled state.new
        ≡ with_statement (context_of context.now) (kept table.old.filled state.old)
        (tree_of (context_of context.now) located.now)) }
    ensures table { OnOk result (IsTableOf (context_of context.now) table.new) }
    ensures all { IfOk result (λ all. all ≡ is_whole located.now.statement) }
{
    // (lent and not copied: it is read where a fault is made, and lies in another line of the cache than the rest)
    let span = &located.span;
    match &located.statement {
        Statement::Emit(range) => {
            emit::validate_emit(&mut table.scope, &mut table.operands, context, *range, span)?;
            // it runs in every stage, and bits that stand for none go
            state.stages = state.stages.intersection(ShaderStages::ALL);
            Ok(true)
        }
        Statement::Store { pointer, value } => {
            check_store(
                &table.scope,
                &mut table.roots,
                context,
                *pointer,
                *value,
                span,
            )?;
            state.stages = state.stages.intersection(ShaderStages::ALL);
            Ok(true)
        }
        Statement::Call {
            function,
            arguments,
            result,
        } => {
            let site = CallSite {
                function: *function,
                named: *result,
                span,
            };
            let arguments = arguments.as_slice();
            validate_call(&mut table.scope, &table.filled, context, &site, arguments)?;
            fill_named(&mut table.filled, result);
            state.stages = state.stages.intersection(callee_stages(context, *function));
            Ok(true)
        }
        Statement::If { condition, .. } => {
            control::check_condition(&table.scope, context, *condition, span)?;
            state.stages = state.stages.intersection(ShaderStages::ALL);
            Ok(false)
        }
        Statement::Block(_) | Statement::Loop { .. } => {
            state.stages = state.stages.intersection(ShaderStages::ALL);
            Ok(false)
        }
        Statement::Kill => {
            state.stages = state.stages.intersection(ShaderStages::FRAGMENT);
            Ok(true)
        }
        Statement::Switch { .. }
        | Statement::Break
        | Statement::Continue
        | Statement::Return { .. }
        | Statement::ControlBarrier(_)
        | Statement::MemoryBarrier(_)
        | Statement::ImageStore { .. }
        | Statement::Atomic { .. }
        | Statement::ImageAtomic { .. }
        | Statement::WorkGroupUniformLoad { .. }
        | Statement::RayQuery { .. }
        | Statement::SubgroupBallot { .. }
        | Statement::SubgroupCollectiveOperation { .. }
        | Statement::SubgroupGather { .. }
        | Statement::CooperativeStore { .. }
        | Statement::RayPipelineFunction(_) => unreachable!(),
    }
}

/// The break condition of a Loop, if it has one. A fault has the place of the Loop.
pub fn check_break_if(
    scope: &ScopeColumn,
    context: &BlockContext,
    break_if: Option<Handle<tag::Expression>>,
    span: &Span,
) -> Result<(), Refused<FunctionError>>
    ensures fault { Answers (FirstOf (break_if_points (context_of context.now) (place_at (known scope.now))
        break_if)) result }
    ensures refused { RefusesFaultsAlone (break_if_points (context_of context.now) (place_at (known scope.now)) break_if) result }
{
    match break_if {
        Some(condition) => control::check_condition(scope, context, condition, span),
        None => Ok(()),
    }
}
