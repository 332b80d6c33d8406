//! The global that each expression is, or is an item of.

ghost use Rattle.std.specs.Prelude.{◌≡◌, [], IfOk};
ghost use Rattle.layer_uses.specs.GlobalRoots.{root_at, root_of, roots_from};

use ir_arena::handle::Handle;
use ir_arena::sequence::Sequence;
use ir_arena::tag;
use ir_module::expressions::Expression;
use std::alloc::{AllocError, Global};

/// The global that an expression is or is an item of, where it is one.
pub(crate) type Root = Option<Handle<tag::GlobalVariable>>;

/// The root of an expression; `None` where it isn't among these.
pub(crate) fn root_at(roots: &[Root], handle: Handle<tag::Expression>) -> Root
    ensures { result ≡ root_at roots.now handle }
{
    match roots.get(handle.index()) {
        Some(root) => *root,
        None => None,
    }
}

/// The root of an expression, of those of the expressions before it.
fn root_of(earlier: &[Root], expression: &Expression) -> Root
    ensures { result ≡ root_of earlier.now expression.now }
{
    match expression {
        Expression::GlobalVariable(global) => Some(*global),
        Expression::Access { base, .. } | Expression::AccessIndex { base, .. } => {
            root_at(earlier, *base)
        }
        Expression::Literal(_)
        | Expression::Constant(_)
        | Expression::Override(_)
        | Expression::ZeroValue(_)
        | Expression::Compose { .. }
        | Expression::FunctionArgument(_)
        | Expression::LocalVariable(_)
        | Expression::Load { .. }
        | Expression::CallResult(_)
        | Expression::AtomicResult { .. }
        | Expression::WorkGroupUniformLoadResult { .. }
        | Expression::RayQueryProceedResult
        | Expression::SubgroupBallotResult
        | Expression::SubgroupOperationResult { .. }
        | Expression::Splat { .. }
        | Expression::Swizzle { .. }
        | Expression::ImageSample { .. }
        | Expression::ImageLoad { .. }
        | Expression::ImageQuery { .. }
        | Expression::Unary { .. }
        | Expression::Binary { .. }
        | Expression::Select { .. }
        | Expression::Derivative { .. }
        | Expression::Relational { .. }
        | Expression::Math { .. }
        | Expression::As { .. }
        | Expression::ArrayLength { .. }
        | Expression::RayQueryGetIntersection { .. }
        | Expression::RayQueryVertexPositions { .. }
        | Expression::CooperativeLoad { .. }
        | Expression::CooperativeMultiplyAdd { .. } => None,
    }
}

/// The root of each expression.
#[tactic(auto, unfolding(crate::specs::GlobalRoots::roots_from))]
pub(crate) fn roots_of(
    alloc: Global,
    expressions: &[Expression],
) -> Result<Sequence<Root>, AllocError>
    ensures { IfOk result (λ roots. roots ≡ roots_from [] expressions.now) }
{
    let mut roots = Sequence::new(alloc);
    for expression in expressions {
        let root = root_of(roots.as_slice(), expression);
        roots.push(root)?;
    }
    Ok(roots)
}
