//! The types of operands.

ghost use Rattle.std.specs.Prelude.{◌≡◌};
ghost use Rattle.std.specs.Option.{option_copied};
ghost use Rattle.layer_expressions.specs.OperandTypes.{type_of_operand, shape_of_operand, arguments_of, two_arguments, three_arguments, four_arguments};

use ir_arena::handle::Handle;
use ir_arena::tag;
use ir_types::type_methods::inner_at;
use ir_types::types::{Type, TypeInner};
use ir_types::typifier::TypeResolution;
use layer_shapes::shapes::{Shape, shape_of};

/// The shapes of one to four operands, in order.
#[derive(Clone, Copy)]
pub enum Arguments {
    One(Shape),
    Two(Shape, Shape),
    Three(Shape, Shape, Shape),
    Four(Shape, Shape, Shape, Shape),
}

/// The type of an operand, which is an earlier expression.
pub(crate) fn type_of_operand<'a>(
    types: &'a [Type],
    earlier: &'a [TypeResolution],
    operand: Handle<tag::Expression>,
) -> Option<&'a TypeInner>
    ensures { option_copied result ≡ type_of_operand types.now earlier.now operand }
{
    match earlier.get(operand.index())? {
        TypeResolution::Handle(ty) => inner_at(types, *ty),
        TypeResolution::Value(inner) => Some(inner),
    }
}

/// The shape of an operand.
pub(crate) fn shape_of_operand(
    types: &[Type],
    earlier: &[TypeResolution],
    operand: Handle<tag::Expression>,
) -> Option<Shape>
    ensures { result ≡ shape_of_operand types.now earlier.now operand }
{
    match type_of_operand(types, earlier, operand) {
        Some(inner) => shape_of(inner),
        None => None,
    }
}

/// Two shapes, where both are there.
fn two_arguments(a: Option<Shape>, b: Option<Shape>) -> Option<Arguments>
    ensures { result ≡ two_arguments a b }
{
    Some(Arguments::Two(a?, b?))
}

/// The same of three.
fn three_arguments(a: Option<Shape>, b: Option<Shape>, c: Option<Shape>) -> Option<Arguments>
    ensures { result ≡ three_arguments a b c }
{
    Some(Arguments::Three(a?, b?, c?))
}

/// The same of four.
fn four_arguments(
    a: Option<Shape>,
    b: Option<Shape>,
    c: Option<Shape>,
    d: Option<Shape>,
) -> Option<Arguments>
    ensures { result ≡ four_arguments a b c d }
{
    Some(Arguments::Four(a?, b?, c?, d?))
}

/// The shapes of all operands, where each has one.
pub(crate) fn arguments_of(
    types: &[Type],
    earlier: &[TypeResolution],
    operands: &[Handle<tag::Expression>],
) -> Option<Arguments>
    ensures { result ≡ arguments_of types.now earlier.now operands.now }
{
    match operands {
        [a] => Some(Arguments::One(shape_of_operand(types, earlier, *a)?)),
        [a, b] => two_arguments(
            shape_of_operand(types, earlier, *a),
            shape_of_operand(types, earlier, *b),
        ),
        [a, b, c] => three_arguments(
            shape_of_operand(types, earlier, *a),
            shape_of_operand(types, earlier, *b),
            shape_of_operand(types, earlier, *c),
        ),
        [a, b, c, d] => four_arguments(
            shape_of_operand(types, earlier, *a),
            shape_of_operand(types, earlier, *b),
            shape_of_operand(types, earlier, *c),
            shape_of_operand(types, earlier, *d),
        ),
        _ => None,
    }
}
