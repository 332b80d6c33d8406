//! Why an operator doesn't take the types of its two sides.

use crate::types::write_type;
use ir_leaves::scalars::ScalarKind;
use ir_types::types::{Type, TypeInner};
use ir_types::unique_arena::UniqueArena;
use layer_forms::BinaryOperator;
use layer_shapes::shapes::{Shape, is_integer, shape_of};
use layer_types::leaves::is_number;
use std::fmt;

/// A side of an operator.
#[derive(Clone, Copy)]
enum Side {
    Left,
    Right,
}

/// What an operator takes on a side. All but `OneBool` are scalars and vectors.
#[derive(Clone, Copy)]
enum Taken {
    Numbers,
    NumbersAndMatrices,
    NumbersAndBools,
    Integers,
    IntegersAndBools,
    UnsignedIntegers,
    OneBool,
}

/// What an operator takes on a side.
fn taken_by(operator: BinaryOperator, side: Side) -> Taken {
    match operator {
        BinaryOperator::Add | BinaryOperator::Subtract | BinaryOperator::Multiply =>
            Taken::NumbersAndMatrices,
        BinaryOperator::Equal | BinaryOperator::NotEqual => Taken::NumbersAndBools,
        BinaryOperator::Divide
        | BinaryOperator::Modulo
        | BinaryOperator::Less
        | BinaryOperator::LessEqual
        | BinaryOperator::Greater
        | BinaryOperator::GreaterEqual => Taken::Numbers,
        BinaryOperator::And | BinaryOperator::InclusiveOr => Taken::IntegersAndBools,
        BinaryOperator::ExclusiveOr => Taken::Integers,
        BinaryOperator::LogicalAnd | BinaryOperator::LogicalOr => Taken::OneBool,
        BinaryOperator::ShiftLeft | BinaryOperator::ShiftRight => match side {
            Side::Left => Taken::Integers,
            Side::Right => Taken::UnsignedIntegers,
        },
    }
}

/// The words for it.
fn words(taken: Taken) -> &'static str {
    match taken {
        Taken::Numbers => "numbers",
        Taken::NumbersAndMatrices => "numbers and matrices",
        Taken::NumbersAndBools => "numbers and bools",
        Taken::Integers => "integers",
        Taken::IntegersAndBools => "integers and bools",
        Taken::UnsignedIntegers => "unsigned integers",
        Taken::OneBool => "a bool",
    }
}

/// Whether a type is taken.
fn is_taken(taken: Taken, inner: &TypeInner) -> bool {
    let Some(shape) = shape_of(inner) else {
        return false;
    };
    let kind = shape.scalar().kind;
    let is_bool = matches!(kind, ScalarKind::Bool);
    match taken {
        Taken::NumbersAndMatrices => is_number(kind),
        Taken::Numbers => is_number(kind) && !shape.is_matrix(),
        Taken::NumbersAndBools => (is_number(kind) || is_bool) && !shape.is_matrix(),
        Taken::Integers => is_integer(kind) && !shape.is_matrix(),
        Taken::IntegersAndBools => (is_integer(kind) || is_bool) && !shape.is_matrix(),
        Taken::UnsignedIntegers => matches!(kind, ScalarKind::Uint) && !shape.is_matrix(),
        Taken::OneBool => is_bool && matches!(shape, Shape::Scalar(_)),
    }
}

/// What is wrong with two types of which an operator takes each by itself.
fn disagreement(operator: BinaryOperator, left: &TypeInner, right: &TypeInner) -> &'static str {
    match operator {
        BinaryOperator::ShiftLeft | BinaryOperator::ShiftRight =>
            "have different numbers of components",
        BinaryOperator::Multiply if is_matrix(left) || is_matrix(right) => "don't fit together",
        _ => "have different types",
    }
}

fn is_matrix(inner: &TypeInner) -> bool {
    matches!(inner, TypeInner::Matrix { .. })
}

/// Writes that an operator doesn't take a type on a side.
fn write_side<W: fmt::Write>(
    writer: &mut W,
    types: &UniqueArena<Type>,
    name: &str,
    operator: BinaryOperator,
    side: Side,
    inner: &TypeInner,
) -> fmt::Result {
    let wanted = words(taken_by(operator, side));
    let place = match side {
        Side::Left => "left",
        Side::Right => "right",
    };
    write!(writer, "{name} takes {wanted} on its {place}, and not ")?;
    write_type(writer, types, inner)
}

/// Writes why an operator with this name doesn't take these two types: which side it doesn't take, or how they differ, as
/// `left and right of Add have different types: vec3<f32> and vec2<f32>`. An Err is that of the writer.
pub(crate) fn write_binary<W: fmt::Write>(
    writer: &mut W,
    types: &UniqueArena<Type>,
    name: &str,
    operator: BinaryOperator,
    left: &TypeInner,
    right: &TypeInner,
) -> fmt::Result {
    if !is_taken(taken_by(operator, Side::Left), left) {
        return write_side(writer, types, name, operator, Side::Left, left);
    }
    if !is_taken(taken_by(operator, Side::Right), right) {
        return write_side(writer, types, name, operator, Side::Right, right);
    }
    let difference = disagreement(operator, left, right);
    write!(writer, "left and right of {name} {difference}: ")?;
    write_type(writer, types, left)?;
    writer.write_str(" and ")?;
    write_type(writer, types, right)
}
