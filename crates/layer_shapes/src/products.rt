//! The shapes of two numbers together, and of products.

ghost use Rattle.std.specs.Prelude.{◌≡◌};
ghost use Rattle.layer_shapes.specs.Products.{mixed, own_of, number_of_two, is_same_size, matrix_product, product_by_matrix, product_of};

use crate::shapes::{Shape, is_same_scalar};
use ir_leaves::scalars::{Scalar, VectorSize};
use layer_types::leaves::is_number;

/// A vector and its own scalar, either side: the vector.
fn mixed(left: Shape, right: Shape) -> Option<Shape>
    ensures { result ≡ mixed left right }
{
    match left {
        Shape::Vector(size, scalar) => match right {
            Shape::Scalar(other) => own_of(
                Shape::Vector(size, scalar),
                is_same_scalar(scalar, other),
            ),
            _ => None,
        },
        Shape::Scalar(scalar) => match right {
            Shape::Vector(size, other) => own_of(
                Shape::Vector(size, other),
                is_same_scalar(other, scalar),
            ),
            _ => None,
        },
        _ => None,
    }
}

/// This shape, where it fits.
pub fn own_of(shape: Shape, fits: bool) -> Option<Shape>
    ensures { result ≡ own_of shape fits }
{
    if fits { Some(shape) } else { None }
}

/// Two numbers of one type, no matrices, or a vector of numbers and its own scalar.
pub fn number_of_two(left: Shape, right: Shape) -> Option<Shape>
    ensures { result ≡ number_of_two left right }
{
    if !is_number(left.scalar().kind) {
        return None;
    }
    if !left.is_matrix() && left.is_same(right) {
        return Some(left);
    }
    mixed(left, right)
}

/// Whether both sizes are the same.
pub fn is_same_size(first: VectorSize, second: VectorSize) -> bool
    ensures { result ≡ is_same_size first second }
{
    first == second
}

/// A product with a matrix on the left.
fn matrix_product(
    columns: VectorSize,
    rows: VectorSize,
    scalar: Scalar,
    right: Shape,
) -> Option<Shape>
    ensures { result ≡ matrix_product columns rows scalar right }
{
    match right {
        Shape::Scalar(other) => own_of(
            Shape::Matrix(columns, rows, scalar),
            is_same_scalar(scalar, other),
        ),
        Shape::Vector(size, other) => own_of(
            Shape::Vector(rows, scalar),
            is_same_size(size, columns) && is_same_scalar(scalar, other),
        ),
        Shape::Matrix(other_columns, other_rows, other) => own_of(
            Shape::Matrix(other_columns, rows, scalar),
            is_same_size(columns, other_rows) && is_same_scalar(scalar, other),
        ),
    }
}

/// A product of what is no matrix with a matrix.
fn product_by_matrix(
    left: Shape,
    columns: VectorSize,
    rows: VectorSize,
    scalar: Scalar,
) -> Option<Shape>
    ensures { result ≡ product_by_matrix left columns rows scalar }
{
    match left {
        Shape::Scalar(other) => own_of(
            Shape::Matrix(columns, rows, scalar),
            is_same_scalar(scalar, other),
        ),
        Shape::Vector(size, other) => own_of(
            Shape::Vector(columns, scalar),
            is_same_size(size, rows) && is_same_scalar(scalar, other),
        ),
        Shape::Matrix(_, _, _) => None,
    }
}

/// A product.
pub fn product_of(left: Shape, right: Shape) -> Option<Shape>
    ensures { result ≡ product_of left right }
{
    match left {
        Shape::Matrix(columns, rows, scalar) => matrix_product(columns, rows, scalar, right),
        _ => match right {
            Shape::Matrix(columns, rows, scalar) => product_by_matrix(left, columns, rows, scalar),
            _ => number_of_two(left, right),
        },
    }
}
