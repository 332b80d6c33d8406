//! The check lists of the kinds of statements that bodies have less often.

ghost use Rattle.std.specs.Prelude.{◌≡◌, false, OnOk};
ghost use Rattle.ir_facts.specs.Answers.{Answers, FirstOf};
ghost use Rattle.check_scope.specs.BodyTrees.{tree_of};
ghost use Rattle.check_scope.specs.Context.{ContextFits};
ghost use Rattle.check_statement.specs.Ready.{IsStatementReady};
ghost use Rattle.check_statement.specs.Rules.{statement_points};
ghost use Rattle.check_flow.specs.walk.Emitted.{place};
ghost use Rattle.check_scope.specs.walk.SeenContext.{context_of};
ghost use Rattle.check_statement.specs.walk.Frequent.{is_frequent};
ghost use Rattle.check_statement.specs.walk.State.{kept, seen};
ghost use Rattle.check_statement.specs.walk.Walk.{puts};
ghost use Rattle.check_scope.specs.walk.Table.{HasPut, IsTableOf, known};

use crate::state::BodyOutcome;
use check_flow::{control, switch};
use check_memory::atomic::{AtomicOperation, validate_atomic};
use check_memory::cooperative::check_cooperative_store;
use check_memory::load::validate_load;
use check_resources::image::Texel;
use check_resources::image_atomic::{TexelOperation, check_image_atomic};
use check_resources::image_store::check_image_store;
use check_resources::ray_query::validate_ray_query;
use check_resources::ray_trace::{Ray, check_trace_ray};
use check_scope::context::BlockContext;
use check_scope::table::Table;
use check_subgroups::barrier::check_barrier;
use check_subgroups::subgroup::validate_ballot;
use check_subgroups::subgroup_collective::{Collective, validate_collective};
use check_subgroups::subgroup_gather::validate_gather;
use ir_arena::Refused;
use ir_errors::function::FunctionError;
use ir_statements::operations::RayPipelineFunction;
use ir_statements::statements::{Located, Statement};
use naga_runs::Abilities;

/// The check list of a statement of any kind that `is_frequent` doesn't name. What the statement emits is in scope
/// afterwards; `advance` has what else it leaves. It stands apart from the frequent kinds, so that nothing is set up for it
/// where one of them is judged.
#[inline(never)]
pub fn check_rarer(
    table: &mut Table,
    state: &BodyOutcome,
    context: &BlockContext,
    abilities: &Abilities,
    located: &Located,
) -> Result<(), Refused<FunctionError>>
    requires context { ContextFits (context_of context.now) }
    requires statement { IsStatementReady (context_of context.now) (tree_of (context_of context.now) located.now) }
    requires kind { is_frequent located.now.statement ≡ false }
    requires table { IsTableOf (context_of context.now) table.old }
    ensures fault { Answers
        (FirstOf (statement_points (context_of context.now) (seen (kept table.old.filled state.now))
        (place abilities.now (known table.old.scope)) (tree_of (context_of context.now) located.now)))
        result }
    ensures scope { OnOk result (HasPut table.old.scope table.new.scope (puts (tree_of (context_of context.now) located.now))) }
    ensures filled { table.new.filled ≡ table.old.filled }
    ensures operands { table.new.operands ≡ table.old.operands }
    ensures roots { table.new.roots ≡ table.old.roots }
{
    let span = located.span;
    let scope = &mut table.scope;
    let filled = &table.filled;
    let alloc = scope.allocator();
    match &located.statement {
        Statement::Switch { selector, cases } => {
            switch::check_switch(scope, context, *selector, cases.as_slice(), span)
        }
        Statement::Break => control::check_break(alloc, *abilities, span),
        Statement::Continue => control::check_continue(alloc, *abilities, span),
        Statement::Return { value } => {
            control::check_return(scope, context, *abilities, value, span)
        }
        Statement::ImageStore {
            image,
            coordinate,
            array_index,
            value,
        } => {
            let texel = Texel {
                coordinate: *coordinate,
                array_index: *array_index,
            };
            check_image_store(scope, context, *image, texel, *value, span)
        }
        Statement::Atomic {
            pointer,
            fun,
            value,
            result,
        } => {
            let operation = AtomicOperation {
                pointer: *pointer,
                fun: *fun,
                value: *value,
                named: *result,
            };
            validate_atomic(scope, filled, context, &operation, span)
        }
        Statement::ImageAtomic {
            image,
            coordinate,
            array_index,
            fun,
            value,
        } => {
            let texel = Texel {
                coordinate: *coordinate,
                array_index: *array_index,
            };
            let operation = TexelOperation {
                texel,
                fun: *fun,
                value: *value,
            };
            check_image_atomic(scope, context, *image, operation, span)
        }
        Statement::WorkGroupUniformLoad { pointer, result } => {
            validate_load(scope, context, *pointer, *result, span)
        }
        Statement::CooperativeStore { target, source } => {
            check_cooperative_store(scope, context, *target, source.pointer, span)
        }
        Statement::ControlBarrier(barrier) | Statement::MemoryBarrier(barrier) => {
            check_barrier(alloc, &context.settings, *barrier, span)
        }
        Statement::RayQuery { query, fun } => validate_ray_query(scope, context, *query, fun, span),
        Statement::RayPipelineFunction(
            RayPipelineFunction::TraceRay {
                acceleration_structure: structure,
                descriptor,
                payload,
            },
        ) => {
            let ray = Ray {
                structure: *structure,
                descriptor: *descriptor,
                payload: *payload,
            };
            check_trace_ray(scope, context, &state.trace.payload, ray, span)
        }
        Statement::SubgroupBallot { result, predicate } => {
            validate_ballot(scope, context, *result, predicate, span)
        }
        Statement::SubgroupGather {
            mode,
            argument,
            result,
        } => validate_gather(scope, context, mode, *argument, *result, span),
        Statement::SubgroupCollectiveOperation {
            op,
            collective_op,
            argument,
            result,
        } => {
            let collective = Collective {
                operation: *op,
                part: *collective_op,
                argument: *argument,
                combined: *result,
            };
            validate_collective(scope, context, &collective, span)
        }
        Statement::Emit(_)
        | Statement::Store { .. }
        | Statement::Call { .. }
        | Statement::If { .. }
        | Statement::Block(_)
        | Statement::Loop { .. }
        | Statement::Kill => unreachable!(),
    }
}
