//! The operands of an expression: the expressions that it is made from, in order.

ghost use Rattle.std.specs.Prelude.{◌≡◌, [], ◌∷◌, length, slice_get};
ghost use Rattle.ir_module.specs.Operands.{operands_of, listed_operands, access_base};

use crate::expressions::Expression;
use ir_arena::handle::Handle;
use ir_arena::tag;

impl Expression {
    /// The expression of which an access takes a part.
    #[inline]
    pub fn access_base(&self) -> Option<Handle<tag::Expression>>
        ensures { result ≡ access_base self.now }
    {
        match self {
            Expression::Access { base, .. } | Expression::AccessIndex { base, .. } => Some(*base),
            _ => None,
        }
    }
}

/// The number of operands of an expression.
///
/// Those of `Access` are its base and its index, of `AccessIndex` its base, of `Load` its pointer, of `Compose` its
/// components, and of the kinds with `operands` these. All other kinds have none.
pub fn operand_count(expression: &Expression) -> usize
    ensures { result ≡ length (operands_of expression.now) }
{
    match expression {
        Expression::Access { .. } => 2,
        Expression::AccessIndex { .. } | Expression::Load { .. } => 1,
        _ => listed_operands(expression).len(),
    }
}

/// The operand with this index, counted from 0. None from [`operand_count`] on.
pub fn operand(expression: &Expression, place: usize) -> Option<Handle<tag::Expression>>
    ensures { result ≡ slice_get (operands_of expression.now) place }
{
    match expression {
        Expression::Access { base, index } => match place {
            0 => Some(*base),
            1 => Some(*index),
            _ => None,
        },
        Expression::AccessIndex { base, .. } => only(*base, place),
        Expression::Load { pointer } => only(*pointer, place),
        _ => listed_operands(expression).get(place).copied(),
    }
}

/// The operand of an expression that has no other.
fn only(operand: Handle<tag::Expression>, place: usize) -> Option<Handle<tag::Expression>>
    ensures { result ≡ slice_get (operand ∷ []) place }
{
    if place == 0 { Some(operand) } else { None }
}

/// The operands that an expression holds as a list, which are all of an expression but `Access`, `AccessIndex` and
/// `Load`.
pub fn listed_operands(expression: &Expression) -> &[Handle<tag::Expression>]
    ensures { result.now ≡ listed_operands expression.now }
{
    match expression {
        Expression::Compose { components, .. } => components.as_slice(),
        Expression::Splat { operands, .. }
        | Expression::Swizzle { operands, .. }
        | Expression::ImageSample { operands, .. }
        | Expression::ImageLoad { operands, .. }
        | Expression::ImageQuery { operands, .. }
        | Expression::Unary { operands, .. }
        | Expression::Binary { operands, .. }
        | Expression::Select { operands, .. }
        | Expression::Derivative { operands, .. }
        | Expression::Relational { operands, .. }
        | Expression::Math { operands, .. }
        | Expression::As { operands, .. }
        | Expression::ArrayLength { operands, .. }
        | Expression::RayQueryGetIntersection { operands, .. }
        | Expression::RayQueryVertexPositions { operands, .. }
        | Expression::CooperativeLoad { operands, .. }
        | Expression::CooperativeMultiplyAdd { operands, .. } => operands.as_slice(),
        Expression::Literal(_)
        | Expression::Constant(_)
        | Expression::Override(_)
        | Expression::ZeroValue(_)
        | Expression::Access { .. }
        | Expression::AccessIndex { .. }
        | Expression::FunctionArgument(_)
        | Expression::GlobalVariable(_)
        | Expression::LocalVariable(_)
        | Expression::Load { .. }
        | Expression::CallResult(_)
        | Expression::AtomicResult { .. }
        | Expression::WorkGroupUniformLoadResult { .. }
        | Expression::RayQueryProceedResult
        | Expression::SubgroupBallotResult
        | Expression::SubgroupOperationResult { .. } => &[],
    }
}
