//! The shapes that the functions of `Math` give.

ghost use Rattle.std.specs.Prelude.{◌≡◌};
ghost use Rattle.layer_expressions.specs.Math.{alike, are_numbers, are_signed, are_floats, are_integers, is_vector, numbers_of, signed_of, floats_of, float_vectors_of, distance_of, dot_of, has_three, cross_of, refracted, mix_of, is_sint, ldexp_of, is_u32, packed_dot_of, transposed, determinant_of, quantized, integers_of, extracted, inserted, packed, unpacked, math_of};

use crate::operands::Arguments;
use ir_leaves::scalars::{Scalar, ScalarKind, VectorSize};
use layer_forms::MathClass;
use layer_shapes::products::{is_same_size, own_of};
use layer_shapes::shapes::{Shape, four_bytes, is_float, is_integer, is_same_scalar, is_signed};
use layer_types::leaves::is_number;

/// So many of one type.
fn alike(count: u32, arguments: Arguments) -> Option<Shape>
    ensures { result ≡ alike count arguments }
{
    match arguments {
        Arguments::One(a) => own_of(a, count == 1),
        Arguments::Two(a, b) => own_of(a, count == 2 && a.is_same(b)),
        Arguments::Three(a, b, c) => own_of(a, count == 3 && (a.is_same(b) && a.is_same(c))),
        Arguments::Four(_, _, _, _) => None,
    }
}

/// Scalars or vectors of numbers.
fn are_numbers(shape: Shape) -> bool
    ensures { result ≡ are_numbers shape }
{
    is_number(shape.scalar().kind) && !shape.is_matrix()
}

/// Scalars or vectors of numbers with a sign.
fn are_signed(shape: Shape) -> bool
    ensures { result ≡ are_signed shape }
{
    is_signed(shape.scalar().kind) && !shape.is_matrix()
}

/// Scalars or vectors of floats.
fn are_floats(shape: Shape) -> bool
    ensures { result ≡ are_floats shape }
{
    is_float(shape.scalar().kind) && !shape.is_matrix()
}

/// Scalars or vectors of integers.
fn are_integers(shape: Shape) -> bool
    ensures { result ≡ are_integers shape }
{
    is_integer(shape.scalar().kind) && !shape.is_matrix()
}

/// Whether it is a vector.
fn is_vector(shape: Shape) -> bool
    ensures { result ≡ is_vector shape }
{
    match shape {
        Shape::Vector(_, _) => true,
        _ => false,
    }
}

/// So many of one type of numbers.
fn numbers_of(count: u32, arguments: Arguments) -> Option<Shape>
    ensures { result ≡ numbers_of count arguments }
{
    let shape = alike(count, arguments)?;
    own_of(shape, are_numbers(shape))
}

/// A number with a sign.
fn signed_of(arguments: Arguments) -> Option<Shape>
    ensures { result ≡ signed_of arguments }
{
    let shape = alike(1, arguments)?;
    own_of(shape, are_signed(shape))
}

/// So many of one type of floats.
fn floats_of(count: u32, arguments: Arguments) -> Option<Shape>
    ensures { result ≡ floats_of count arguments }
{
    let shape = alike(count, arguments)?;
    own_of(shape, are_floats(shape))
}

/// So many vectors of floats of one type.
fn float_vectors_of(count: u32, arguments: Arguments) -> Option<Shape>
    ensures { result ≡ float_vectors_of count arguments }
{
    let shape = alike(count, arguments)?;
    own_of(shape, is_vector(shape) && are_floats(shape))
}

/// The scalar of so many of one type of floats.
fn distance_of(count: u32, arguments: Arguments) -> Option<Shape>
    ensures { result ≡ distance_of count arguments }
{
    let shape = floats_of(count, arguments)?;
    Some(Shape::Scalar(shape.scalar()))
}

/// The scalar of two vectors of numbers.
fn dot_of(arguments: Arguments) -> Option<Shape>
    ensures { result ≡ dot_of arguments }
{
    let shape = numbers_of(2, arguments)?;
    own_of(Shape::Scalar(shape.scalar()), is_vector(shape))
}

/// Whether it is a vector of three.
fn has_three(shape: Shape) -> bool
    ensures { result ≡ has_three shape }
{
    match shape {
        Shape::Vector(VectorSize::Tri, _) => true,
        _ => false,
    }
}

/// Two vectors of three floats.
fn cross_of(arguments: Arguments) -> Option<Shape>
    ensures { result ≡ cross_of arguments }
{
    let shape = floats_of(2, arguments)?;
    own_of(shape, has_three(shape))
}

/// Two vectors of floats and their scalar.
fn refracted(arguments: Arguments) -> Option<Shape>
    ensures { result ≡ refracted arguments }
{
    match arguments {
        Arguments::Three(a, b, c) => {
            if !is_vector(a) || !are_floats(a) {
                return None;
            }
            own_of(a, a.is_same(b) && c.is_same(Shape::Scalar(a.scalar())))
        }
        _ => None,
    }
}

/// Three floats, of which the third may be the scalar of the others.
fn mix_of(arguments: Arguments) -> Option<Shape>
    ensures { result ≡ mix_of arguments }
{
    match arguments {
        Arguments::Three(a, b, c) => {
            if !are_floats(a) || !a.is_same(b) {
                return None;
            }
            own_of(a, a.is_same(c) || c.is_same(Shape::Scalar(a.scalar())))
        }
        _ => None,
    }
}

/// Whether a kind is that of signed integers.
fn is_sint(kind: ScalarKind) -> bool
    ensures { result ≡ is_sint kind }
{
    match kind {
        ScalarKind::Sint => true,
        _ => false,
    }
}

/// Floats and as many signed integers.
fn ldexp_of(arguments: Arguments) -> Option<Shape>
    ensures { result ≡ ldexp_of arguments }
{
    match arguments {
        Arguments::Two(a, b) => {
            if !are_floats(a) {
                return None;
            }
            own_of(
                a,
                is_sint(b.scalar().kind) && a.with_scalar(b.scalar()).is_same(b),
            )
        }
        _ => None,
    }
}

/// Whether it is an unsigned number of 32 bits.
fn is_u32(shape: Shape) -> bool
    ensures { result ≡ is_u32 shape }
{
    shape.is_same(Shape::Scalar(Scalar::U32))
}

/// Two numbers of 32 bits.
fn packed_dot_of(kind: ScalarKind, arguments: Arguments) -> Option<Shape>
    ensures { result ≡ packed_dot_of kind arguments }
{
    match arguments {
        Arguments::Two(a, b) => own_of(Shape::Scalar(four_bytes(kind)), is_u32(a) && is_u32(b)),
        _ => None,
    }
}

/// A matrix the other way round.
fn transposed(arguments: Arguments) -> Option<Shape>
    ensures { result ≡ transposed arguments }
{
    match arguments {
        Arguments::One(Shape::Matrix(columns, rows, scalar)) => Some(Shape::Matrix(
            rows, columns, scalar,
        )),
        _ => None,
    }
}

/// The scalar of a square matrix.
fn determinant_of(arguments: Arguments) -> Option<Shape>
    ensures { result ≡ determinant_of arguments }
{
    match arguments {
        Arguments::One(Shape::Matrix(columns, rows, scalar)) => own_of(
            Shape::Scalar(scalar),
            is_same_size(columns, rows),
        ),
        _ => None,
    }
}

/// Floats of 4 bytes.
fn quantized(arguments: Arguments) -> Option<Shape>
    ensures { result ≡ quantized arguments }
{
    let shape = floats_of(1, arguments)?;
    own_of(shape, is_same_scalar(shape.scalar(), Scalar::F32))
}

/// Integers.
fn integers_of(arguments: Arguments) -> Option<Shape>
    ensures { result ≡ integers_of arguments }
{
    let shape = alike(1, arguments)?;
    own_of(shape, are_integers(shape))
}

/// Integers, an offset and a count.
fn extracted(arguments: Arguments) -> Option<Shape>
    ensures { result ≡ extracted arguments }
{
    match arguments {
        Arguments::Three(a, b, c) => own_of(a, are_integers(a) && (is_u32(b) && is_u32(c))),
        _ => None,
    }
}

/// Two of the same integers, an offset and a count.
fn inserted(arguments: Arguments) -> Option<Shape>
    ensures { result ≡ inserted arguments }
{
    match arguments {
        Arguments::Four(a, b, c, d) => {
            if !are_integers(a) || !a.is_same(b) {
                return None;
            }
            own_of(a, is_u32(c) && is_u32(d))
        }
        _ => None,
    }
}

/// A vector that is packed.
fn packed(size: VectorSize, kind: ScalarKind, arguments: Arguments) -> Option<Shape>
    ensures { result ≡ packed size kind arguments }
{
    match arguments {
        Arguments::One(a) => own_of(
            Shape::Scalar(Scalar::U32),
            a.is_same(Shape::Vector(size, four_bytes(kind))),
        ),
        _ => None,
    }
}

/// A vector that is unpacked.
fn unpacked(size: VectorSize, kind: ScalarKind, arguments: Arguments) -> Option<Shape>
    ensures { result ≡ unpacked size kind arguments }
{
    match arguments {
        Arguments::One(a) => own_of(Shape::Vector(size, four_bytes(kind)), is_u32(a)),
        _ => None,
    }
}

/// What a function of this class gives.
pub(crate) fn math_of(class: MathClass, arguments: Arguments) -> Option<Shape>
    ensures { result ≡ math_of class arguments }
{
    match class {
        MathClass::Numbers(count) => numbers_of(count, arguments),
        MathClass::Signed => signed_of(arguments),
        MathClass::Floats(count) => floats_of(count, arguments),
        MathClass::FloatVectors(count) => float_vectors_of(count, arguments),
        MathClass::Distance(count) => distance_of(count, arguments),
        MathClass::Dot => dot_of(arguments),
        MathClass::Cross => cross_of(arguments),
        MathClass::Refract => refracted(arguments),
        MathClass::Mix => mix_of(arguments),
        MathClass::Ldexp => ldexp_of(arguments),
        MathClass::Split => None,
        MathClass::PackedDot(kind) => packed_dot_of(kind, arguments),
        MathClass::Transpose => transposed(arguments),
        MathClass::Determinant => determinant_of(arguments),
        MathClass::Quantize => quantized(arguments),
        MathClass::Bits => integers_of(arguments),
        MathClass::ExtractBits => extracted(arguments),
        MathClass::InsertBits => inserted(arguments),
        MathClass::Pack(size, kind) => packed(size, kind, arguments),
        MathClass::Unpack(size, kind) => unpacked(size, kind, arguments),
    }
}
