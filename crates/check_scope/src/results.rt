//! Results of calls and of atomic operations that are still to be filled.

ghost use Rattle.std.specs.Prelude.{◌≡◌};
ghost use Rattle.std.specs.Option.{option_copied};
ghost use Rattle.check_scope.specs.Results.{is_to_fill, is_unfilled, is_fresh};
ghost use Rattle.check_scope.specs.walk.SeenContext.{context_of};
ghost use Rattle.check_scope.specs.walk.Table.{filled_in};

use crate::context::BlockContext;
use crate::table::FilledColumn;
use ir_arena::handle::Handle;
use ir_arena::tag;
use ir_flags::valid::ValidationFlags;
use ir_module::expressions::Expression;

/// Whether an expression is of a kind that a Call or an Atomic fills.
pub fn is_to_fill(expression: Option<&Expression>) -> bool
    ensures { result ≡ is_to_fill (option_copied expression.entry) }
{
    match expression {
        None => false,
        Some(Expression::CallResult(_) | Expression::AtomicResult { .. }) => true,
        Some(
            Expression::Literal(_)
            | Expression::Constant(_)
            | Expression::Override(_)
            | Expression::ZeroValue(_)
            | Expression::Compose { .. }
            | Expression::Access { .. }
            | Expression::AccessIndex { .. }
            | Expression::FunctionArgument(_)
            | Expression::GlobalVariable(_)
            | Expression::LocalVariable(_)
            | Expression::Load { .. }
            | Expression::WorkGroupUniformLoadResult { .. }
            | Expression::RayQueryProceedResult
            | Expression::SubgroupBallotResult
            | Expression::SubgroupOperationResult { .. }
            | Expression::Splat { .. }
            | Expression::Swizzle { .. }
            | Expression::ImageSample { .. }
            | Expression::ImageLoad { .. }
            | Expression::ImageQuery { .. }
            | Expression::Unary { .. }
            | Expression::Binary { .. }
            | Expression::Select { .. }
            | Expression::Derivative { .. }
            | Expression::Relational { .. }
            | Expression::Math { .. }
            | Expression::As { .. }
            | Expression::ArrayLength { .. }
            | Expression::RayQueryGetIntersection { .. }
            | Expression::RayQueryVertexPositions { .. }
            | Expression::CooperativeLoad { .. }
            | Expression::CooperativeMultiplyAdd { .. },
        ) => false,
    }
}

/// Whether an expression is a result that nothing filled so far.
pub(crate) fn is_unfilled(
    filled: &FilledColumn,
    context: &BlockContext,
    handle: Handle<tag::Expression>,
) -> bool
    ensures { result ≡ is_unfilled (context_of context.now) (filled_in filled.now) handle }
{
    is_to_fill(context.expression(handle)) && !filled.contains(handle)
}

/// Whether a result is still to be filled.
pub fn is_fresh(
    filled: &FilledColumn,
    context: &BlockContext,
    handle: Handle<tag::Expression>,
) -> bool
    ensures { result ≡ is_fresh (context_of context.now) (filled_in filled.now) handle }
{
    let flags = context.settings.flags;
    flags.contains(ValidationFlags::EXPRESSIONS) && is_unfilled(filled, context, handle)
}
