//! The stages that a statement may run in.

ghost use Rattle.std.specs.Prelude.{◌≡◌};
ghost use Rattle.check_scope.specs.BodyTrees.{tree_of};
ghost use Rattle.check_statement.specs.Rules.{callee_stages, stages_in};
ghost use Rattle.check_scope.specs.walk.SeenContext.{context_of};

use check_scope::context::BlockContext;
use ir_arena::handle::Handle;
use ir_arena::tag;
use ir_flags::valid::ShaderStages;
use ir_statements::statements::{Located, Statement};

/// The stages that a statement may run in.
pub(crate) fn stages_in(context: &BlockContext, located: &Located) -> ShaderStages
    ensures { result ≡ stages_in (context_of context.now) (tree_of (context_of context.now) located.now) }
{
    match &located.statement {
        Statement::Kill => ShaderStages::FRAGMENT,
        Statement::ControlBarrier(_)
        | Statement::MemoryBarrier(_)
        | Statement::WorkGroupUniformLoad { .. } => ShaderStages::COMPUTE_LIKE,
        Statement::CooperativeStore { .. } => ShaderStages::COMPUTE,
        Statement::Call { function, .. } => callee_stages(context, *function),
        Statement::SubgroupBallot { .. }
        | Statement::SubgroupGather { .. }
        | Statement::SubgroupCollectiveOperation { .. } => context.settings.subgroup_stages,
        Statement::Emit(_)
        | Statement::Block(_)
        | Statement::If { .. }
        | Statement::Switch { .. }
        | Statement::Loop { .. }
        | Statement::Break
        | Statement::Continue
        | Statement::Return { .. }
        | Statement::Store { .. }
        | Statement::ImageStore { .. }
        | Statement::Atomic { .. }
        | Statement::ImageAtomic { .. }
        | Statement::RayQuery { .. }
        | Statement::RayPipelineFunction(_) => ShaderStages::ALL,
    }
}

/// The stages that an earlier function may run in.
pub(crate) fn callee_stages(context: &BlockContext, function: Handle<tag::Function>) -> ShaderStages
    ensures { result ≡ callee_stages (context_of context.now).earlier function }
{
    match context.earlier.functions.as_slice().get(function.index()) {
        Some(info) => info.available_stages,
        None => ShaderStages::ALL,
    }
}
