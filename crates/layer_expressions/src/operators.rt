//! The shapes that operators give.

ghost use Rattle.std.specs.Prelude.{◌≡◌};
ghost use Rattle.layer_expressions.specs.Operators.{splat_of, has_component, covers, swizzled, unary_takes, unary_of, sum_of, bools_of, is_comparable, compared, has_bits, bits_of, logical_of, shifted, is_unsigned, binary_shape, binary_of, selects, selected, derived, related, cast_scalar, is_cast, cast_of};

use crate::operands::Arguments;
use ir_leaves::scalars::{Scalar, ScalarKind, VectorSize};
use layer_forms::{
    BinaryOperator, Cast, RelationalFunction, Swizzle, SwizzleComponent, UnaryOperator,
};
use layer_shapes::products::{number_of_two, own_of, product_of};
use layer_shapes::shapes::{Shape, is_bool, is_float, is_integer, is_signed};
use layer_types::leaves::{is_known, is_number};

/// A splat of this size.
pub(crate) fn splat_of(size: VectorSize, arguments: Arguments) -> Option<Shape>
    ensures { result ≡ splat_of size arguments }
{
    match arguments {
        Arguments::One(Shape::Scalar(scalar)) => Some(Shape::Vector(size, scalar)),
        _ => None,
    }
}

/// Whether a vector of this size has this component.
fn has_component(size: VectorSize, component: SwizzleComponent) -> bool
    ensures { result ≡ has_component size component }
{
    match component {
        SwizzleComponent::X | SwizzleComponent::Y => true,
        SwizzleComponent::Z => match size {
            VectorSize::Bi => false,
            VectorSize::Tri | VectorSize::Quad => true,
        },
        SwizzleComponent::W => match size {
            VectorSize::Bi | VectorSize::Tri => false,
            VectorSize::Quad => true,
        },
    }
}

/// Whether a vector of this size has all components that are taken.
fn covers(size: VectorSize, swizzle: Swizzle) -> bool
    ensures { result ≡ covers size swizzle }
{
    let two = has_component(size, swizzle.first) && has_component(size, swizzle.second);
    match swizzle.size {
        VectorSize::Bi => two,
        VectorSize::Tri => two && has_component(size, swizzle.third),
        VectorSize::Quad => {
            two && (has_component(size, swizzle.third) && has_component(size, swizzle.fourth))
        }
    }
}

/// A swizzle.
pub(crate) fn swizzled(swizzle: Swizzle, arguments: Arguments) -> Option<Shape>
    ensures { result ≡ swizzled swizzle arguments }
{
    match arguments {
        Arguments::One(Shape::Vector(size, scalar)) => {
            if covers(size, swizzle) {
                Some(Shape::Vector(swizzle.size, scalar))
            } else {
                None
            }
        }
        _ => None,
    }
}

/// Whether an operator takes an operand.
fn unary_takes(operator: UnaryOperator, operand: Shape) -> bool
    ensures { result ≡ unary_takes operator operand }
{
    let kind = operand.scalar().kind;
    match operator {
        UnaryOperator::Negate => is_signed(kind),
        UnaryOperator::LogicalNot => is_bool(kind) && !operand.is_matrix(),
        UnaryOperator::BitwiseNot => is_integer(kind) && !operand.is_matrix(),
    }
}

/// An operator of one operand.
pub(crate) fn unary_of(operator: UnaryOperator, arguments: Arguments) -> Option<Shape>
    ensures { result ≡ unary_of operator arguments }
{
    match arguments {
        Arguments::One(operand) => {
            if unary_takes(operator, operand) {
                Some(operand)
            } else {
                None
            }
        }
        _ => None,
    }
}

/// A sum or difference.
fn sum_of(left: Shape, right: Shape) -> Option<Shape>
    ensures { result ≡ sum_of left right }
{
    if left.is_matrix() && left.is_same(right) {
        Some(left)
    } else {
        number_of_two(left, right)
    }
}

/// A bool, or a vector of as many bools as a vector has components.
fn bools_of(shape: Shape) -> Shape
    ensures { result ≡ bools_of shape }
{
    shape.with_scalar(Scalar::BOOL)
}

/// Whether values of this kind are compared: numbers, and bools where only equality is asked.
fn is_comparable(kind: ScalarKind, takes_bools: bool) -> bool
    ensures { result ≡ is_comparable kind takes_bools }
{
    is_number(kind) || (takes_bools && is_bool(kind))
}

/// A comparison of two of one type.
fn compared(takes_bools: bool, left: Shape, right: Shape) -> Option<Shape>
    ensures { result ≡ compared takes_bools left right }
{
    if left.is_matrix() || !left.is_same(right) {
        return None;
    }
    own_of(
        bools_of(left),
        is_comparable(left.scalar().kind, takes_bools),
    )
}

/// Whether bits of values of this kind are combined.
fn has_bits(kind: ScalarKind, takes_bools: bool) -> bool
    ensures { result ≡ has_bits kind takes_bools }
{
    is_integer(kind) || (takes_bools && is_bool(kind))
}

/// Two of one type, bit by bit.
fn bits_of(takes_bools: bool, left: Shape, right: Shape) -> Option<Shape>
    ensures { result ≡ bits_of takes_bools left right }
{
    if left.is_matrix() || !left.is_same(right) {
        return None;
    }
    own_of(left, has_bits(left.scalar().kind, takes_bools))
}

/// Two bools.
fn logical_of(left: Shape, right: Shape) -> Option<Shape>
    ensures { result ≡ logical_of left right }
{
    let bool_shape = Shape::Scalar(Scalar::BOOL);
    own_of(
        bool_shape,
        left.is_same(bool_shape) && right.is_same(bool_shape),
    )
}

/// A shift of integers by as many unsigned ones.
fn shifted(left: Shape, right: Shape) -> Option<Shape>
    ensures { result ≡ shifted left right }
{
    if left.is_matrix() || !is_integer(left.scalar().kind) {
        return None;
    }
    own_of(
        left,
        is_unsigned(right.scalar().kind) && left.with_scalar(right.scalar()).is_same(right),
    )
}

/// Whether a kind is that of unsigned integers.
fn is_unsigned(kind: ScalarKind) -> bool
    ensures { result ≡ is_unsigned kind }
{
    match kind {
        ScalarKind::Uint => true,
        _ => false,
    }
}

/// An operator between two operands.
fn binary_shape(operator: BinaryOperator, left: Shape, right: Shape) -> Option<Shape>
    ensures { result ≡ binary_shape operator left right }
{
    match operator {
        BinaryOperator::Add | BinaryOperator::Subtract => sum_of(left, right),
        BinaryOperator::Multiply => product_of(left, right),
        BinaryOperator::Divide | BinaryOperator::Modulo => number_of_two(left, right),
        BinaryOperator::Equal | BinaryOperator::NotEqual => compared(true, left, right),
        BinaryOperator::Less
        | BinaryOperator::LessEqual
        | BinaryOperator::Greater
        | BinaryOperator::GreaterEqual => compared(false, left, right),
        BinaryOperator::And | BinaryOperator::InclusiveOr => bits_of(true, left, right),
        BinaryOperator::ExclusiveOr => bits_of(false, left, right),
        BinaryOperator::LogicalAnd | BinaryOperator::LogicalOr => logical_of(left, right),
        BinaryOperator::ShiftLeft | BinaryOperator::ShiftRight => shifted(left, right),
    }
}

/// An operator of two operands.
pub(crate) fn binary_of(operator: BinaryOperator, arguments: Arguments) -> Option<Shape>
    ensures { result ≡ binary_of operator arguments }
{
    match arguments {
        Arguments::Two(left, right) => binary_shape(operator, left, right),
        _ => None,
    }
}

/// Whether a condition selects between values of this shape.
fn selects(condition: Shape, value: Shape) -> bool
    ensures { result ≡ selects condition value }
{
    condition.is_same(Shape::Scalar(Scalar::BOOL)) || condition.is_same(bools_of(value))
}

/// A select.
pub(crate) fn selected(arguments: Arguments) -> Option<Shape>
    ensures { result ≡ selected arguments }
{
    match arguments {
        Arguments::Three(condition, accept, reject) => {
            if accept.is_matrix() || !accept.is_same(reject) {
                return None;
            }
            own_of(accept, selects(condition, accept))
        }
        _ => None,
    }
}

/// A derivative.
pub(crate) fn derived(arguments: Arguments) -> Option<Shape>
    ensures { result ≡ derived arguments }
{
    match arguments {
        Arguments::One(operand) => own_of(
            operand,
            is_float(operand.scalar().kind) && !operand.is_matrix(),
        ),
        _ => None,
    }
}

/// A relational function.
pub(crate) fn related(function: RelationalFunction, arguments: Arguments) -> Option<Shape>
    ensures { result ≡ related function arguments }
{
    match arguments {
        Arguments::One(argument) => {
            if argument.is_matrix() {
                return None;
            }
            match function {
                RelationalFunction::All | RelationalFunction::Any => own_of(
                    Shape::Scalar(Scalar::BOOL),
                    is_bool(argument.scalar().kind),
                ),
                RelationalFunction::IsNan | RelationalFunction::IsInf => own_of(
                    bools_of(argument),
                    is_float(argument.scalar().kind),
                ),
            }
        }
        _ => None,
    }
}

/// The scalar that a cast gives.
fn cast_scalar(cast: Cast, from: Scalar) -> Scalar
    ensures { result ≡ cast_scalar cast from }
{
    Scalar {
        kind: cast.kind,
        width: cast.convert.unwrap_or(from.width),
    }
}

/// Whether a conversion or bitcast is between these kinds. A matrix becomes one of floats, and isn't cast bit by bit.
fn is_cast(cast: Cast, from: Shape) -> bool
    ensures { result ≡ is_cast cast from }
{
    let kind = from.scalar().kind;
    match cast.convert {
        Some(_) => {
            (is_number(kind) || is_bool(kind)) && (!from.is_matrix() || is_float(cast.kind))
        }
        None => is_number(kind) && (is_number(cast.kind) && !from.is_matrix()),
    }
}

/// A conversion or bitcast.
pub(crate) fn cast_of(cast: Cast, arguments: Arguments) -> Option<Shape>
    ensures { result ≡ cast_of cast arguments }
{
    match arguments {
        Arguments::One(operand) => {
            let scalar = cast_scalar(cast, operand.scalar());
            own_of(
                operand.with_scalar(scalar),
                is_known(scalar) && is_cast(cast, operand),
            )
        }
        _ => None,
    }
}
