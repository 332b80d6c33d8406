//! When values are known, by the expressions alone.

ghost use Rattle.std.specs.Prelude.{◌≡◌, [], IfOk};
ghost use Rattle.naga_layers.specs.Kinds.{kind_at, later_of, latest_of, kind_of, kinds_from};
ghost use Rattle.ir_facts.specs.declared.proc.expression_kinds.ExpressionKind.TheVariants.{Const};

use ir_arena::arena::Arena;
use ir_arena::handle::Handle;
use ir_arena::tag;
use ir_facts::proc::expression_kinds::{ExpressionKind, ExpressionKindTracker};
use ir_module::expressions::Expression;
use std::alloc::{AllocError, Global};

/// The kind of each expression.
#[tactic(auto, unfolding(crate::specs::Kinds::kinds_from))]
pub(crate) fn kinds_of(
    alloc: Global,
    expressions: &Arena<Expression>,
) -> Result<ExpressionKindTracker, AllocError>
    ensures { IfOk result (λ kinds. kinds ≡ kinds_from [] expressions.now) }
{
    let mut kinds = ExpressionKindTracker::new(alloc);
    for expression in expressions.as_slice() {
        let kind = kind_of(&kinds, expression);
        kinds.push(kind)?;
    }
    Ok(kinds)
}

/// The kind of an expression, of those of the expressions before it.
fn kind_of(earlier: &ExpressionKindTracker, expression: &Expression) -> ExpressionKind
    ensures { result ≡ kind_of earlier.now expression.now }
{
    match expression {
        Expression::Literal(_) | Expression::Constant(_) | Expression::ZeroValue(_) =>
            ExpressionKind::Const,
        Expression::Override(_) => ExpressionKind::Override,
        Expression::Unary { operands, .. }
        | Expression::Compose {
            components: operands,
            ..
        } => latest_of(earlier, operands.as_slice()),
        Expression::Access { .. }
        | Expression::AccessIndex { .. }
        | Expression::FunctionArgument(_)
        | Expression::GlobalVariable(_)
        | Expression::LocalVariable(_)
        | Expression::Load { .. }
        | Expression::CallResult(_)
        | Expression::AtomicResult { .. }
        | Expression::WorkGroupUniformLoadResult { .. }
        | Expression::RayQueryProceedResult
        | Expression::SubgroupBallotResult
        | Expression::SubgroupOperationResult { .. }
        | Expression::Splat { .. }
        | Expression::Swizzle { .. }
        | Expression::ImageSample { .. }
        | Expression::ImageLoad { .. }
        | Expression::ImageQuery { .. }
        | Expression::Binary { .. }
        | Expression::Select { .. }
        | Expression::Derivative { .. }
        | Expression::Relational { .. }
        | Expression::Math { .. }
        | Expression::As { .. }
        | Expression::ArrayLength { .. }
        | Expression::RayQueryGetIntersection { .. }
        | Expression::RayQueryVertexPositions { .. }
        | Expression::CooperativeLoad { .. }
        | Expression::CooperativeMultiplyAdd { .. } => ExpressionKind::Runtime,
    }
}

/// The latest of the operands' kinds; `Const` where there are none.
#[tactic(auto, unfolding(crate::specs::Kinds::latest_of))]
fn latest_of(
    earlier: &ExpressionKindTracker,
    operands: &[Handle<tag::Expression>],
) -> ExpressionKind
    ensures { result ≡ latest_of earlier.now Const operands.now }
{
    let mut latest = ExpressionKind::Const;
    for handle in operands {
        latest = later_of(latest, kind_at(earlier, *handle));
    }
    latest
}

/// The kind of an expression before this one; one that isn't there is known only at run time.
fn kind_at(earlier: &ExpressionKindTracker, handle: Handle<tag::Expression>) -> ExpressionKind
    ensures { result ≡ kind_at earlier.now handle }
{
    if handle.index() >= earlier.len() {
        ExpressionKind::Runtime
    } else if earlier.is_const(handle) {
        ExpressionKind::Const
    } else if earlier.is_const_or_override(handle) {
        ExpressionKind::Override
    } else {
        ExpressionKind::Runtime
    }
}

/// The later of two kinds.
fn later_of(kind: ExpressionKind, other: ExpressionKind) -> ExpressionKind
    ensures { result ≡ later_of kind other }
{
    match kind {
        ExpressionKind::Const => other,
        ExpressionKind::Override => match other {
            ExpressionKind::Const => ExpressionKind::Override,
            ExpressionKind::Override | ExpressionKind::Runtime => other,
        },
        ExpressionKind::Runtime => ExpressionKind::Runtime,
    }
}
