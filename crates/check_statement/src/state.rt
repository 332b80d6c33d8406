//! What goes along the statements of a body, beside the table.

ghost use Rattle.std.specs.Prelude.{◌≡◌, ◌<◌, ℕ, List, IfSome};
ghost use Rattle.naga_runs.specs.Positions.{StatementNode};
ghost use Rattle.ir_statements.specs.View.{tree_of};
ghost use Rattle.check_scope.specs.BodyTrees as in_context;
ghost use Rattle.check_scope.specs.Context.{Context};
ghost use Rattle.check_scope.specs.Results.{result_of};
ghost use Rattle.check_scope.specs.walk.SeenContext.{context_of};
ghost use Rattle.check_statement.specs.walk.State.{kept, with_result, with_statement};
ghost use Rattle.check_scope.specs.walk.Table.{KnowsResults, filled_in, marked};

use crate::stages::stages_in;
use bitflags::Flags;
use check_resources::ray_trace::advance_trace;
use check_scope::context::BlockContext;
use check_scope::table::FilledColumn;
use check_scope::trace::TraceState;
use ir_arena::handle::Handle;
use ir_arena::tag;
use ir_flags::valid::ShaderStages;
use ir_statements::statements::{Located, Statement};

/// What the statements so far leave, and after the last one what an accepted body leaves.
#[derive(Clone, Copy)]
pub struct BodyOutcome {
    /// The stages that all of them may run in.
    pub stages: ShaderStages,
    /// What ray traces leave, those of earlier functions too.
    pub trace: TraceState,
}

/// The result that a Call or an Atomic names.
fn result_of(located: &Located) -> Option<Handle<tag::Expression>>
    ensures { (operands : ℕ → List ℕ) →
        result ≡ result_of (StatementNode (tree_of operands located.now.statement located.now.span)) }
{
    match &located.statement {
        Statement::Call { result, .. } | Statement::Atomic { result, .. } => *result,
        Statement::Emit(_)
        | Statement::Block(_)
        | Statement::If { .. }
        | Statement::Switch { .. }
        | Statement::Loop { .. }
        | Statement::Break
        | Statement::Continue
        | Statement::Return { .. }
        | Statement::Kill
        | Statement::ControlBarrier(_)
        | Statement::MemoryBarrier(_)
        | Statement::Store { .. }
        | Statement::ImageStore { .. }
        | Statement::ImageAtomic { .. }
        | Statement::WorkGroupUniformLoad { .. }
        | Statement::RayQuery { .. }
        | Statement::SubgroupBallot { .. }
        | Statement::SubgroupCollectiveOperation { .. }
        | Statement::SubgroupGather { .. }
        | Statement::CooperativeStore { .. }
        | Statement::RayPipelineFunction(_) => None,
    }
}

/// Marks the result that a Call or an Atomic names, if it names one, as filled.
pub(crate) fn fill_named(filled: &mut FilledColumn, named: &Option<Handle<tag::Expression>>)
    requires { IfSome named.now (λ r. r < marked filled.old) }
    ensures filled { filled_in filled.new ≡ with_result (filled_in filled.old) named.now }
    ensures results { (context : Context) → KnowsResults context filled.old → KnowsResults context filled.new }
    ensures count { marked filled.new ≡ marked filled.old }
{
    if let Some(handle) = named {
        filled.fill(*handle);
    }
}

/// What a statement leaves where none of its checks fails. It stands apart, since only rarer kinds need all of it.
#[inline(never)]
pub fn advance(
    filled: &mut FilledColumn,
    state: &mut BodyOutcome,
    context: &BlockContext,
    located: &Located,
)
    requires { IfSome
        (result_of (StatementNode (in_context.tree_of (context_of context.now) located.now)))
        (λ r. r < marked filled.old) }
    ensures state { kept filled.new state.new
        ≡ with_statement (context_of context.now) (kept filled.old state.old)
        (in_context.tree_of (context_of context.now) located.now) }
    ensures results { KnowsResults (context_of context.now) filled.old → KnowsResults (context_of context.now) filled.new }
    ensures count { marked filled.new ≡ marked filled.old }
{
    fill_named(filled, &result_of(located));
    state.stages = state.stages.intersection(stages_in(context, located));
    advance_trace(&mut state.trace, context, located);
}
