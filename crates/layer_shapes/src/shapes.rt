//! Scalars, vectors and matrices: what operators and functions compute with.

ghost use Rattle.std.specs.Prelude.{◌≡◌};
ghost use Rattle.layer_shapes.specs.Shapes.{shape_of, value_of, scalar_of, four_bytes, with_scalar, is_matrix, is_same, is_same_scalar, is_integer, is_signed, is_float, is_bool};

use ir_leaves::scalars::{Scalar, ScalarKind, VectorSize};
use ir_types::types::TypeInner;
use ir_types::typifier::TypeResolution;

/// A scalar, a vector of a size, or a matrix of so many columns and rows.
#[derive(Clone, Copy, PartialEq, Debug)]
pub enum Shape {
    Scalar(Scalar),
    Vector(VectorSize, Scalar),
    Matrix(VectorSize, VectorSize, Scalar),
}

/// The shape of a type, where it has one.
pub fn shape_of(inner: &TypeInner) -> Option<Shape>
    ensures { result ≡ shape_of inner.now }
{
    match inner {
        TypeInner::Scalar(scalar) => Some(Shape::Scalar(*scalar)),
        TypeInner::Vector { size, scalar } => Some(Shape::Vector(*size, *scalar)),
        TypeInner::Matrix {
            columns,
            rows,
            scalar,
        } => Some(Shape::Matrix(*columns, *rows, *scalar)),
        _ => None,
    }
}

impl Shape {
    /// The type of a value of this shape.
    pub fn value(self) -> TypeResolution
        ensures { result ≡ value_of self }
    {
        TypeResolution::Value(match self {
            Shape::Scalar(scalar) => TypeInner::Scalar(scalar),
            Shape::Vector(size, scalar) => TypeInner::Vector { size, scalar },
            Shape::Matrix(columns, rows, scalar) => TypeInner::Matrix {
                columns,
                rows,
                scalar,
            },
        })
    }

    /// The scalar that it is made of.
    pub fn scalar(self) -> Scalar
        ensures { result ≡ scalar_of self }
    {
        match self {
            Shape::Scalar(scalar) | Shape::Vector(_, scalar) | Shape::Matrix(_, _, scalar) =>
                scalar,
        }
    }

    /// The same of another scalar.
    pub fn with_scalar(self, scalar: Scalar) -> Shape
        ensures { result ≡ with_scalar self scalar }
    {
        match self {
            Shape::Scalar(_) => Shape::Scalar(scalar),
            Shape::Vector(size, _) => Shape::Vector(size, scalar),
            Shape::Matrix(columns, rows, _) => Shape::Matrix(columns, rows, scalar),
        }
    }

    /// Whether it is a matrix.
    pub fn is_matrix(self) -> bool
        ensures { result ≡ is_matrix self }
    {
        match self {
            Shape::Matrix(_, _, _) => true,
            _ => false,
        }
    }

    /// Whether both are the same.
    pub fn is_same(self, other: Shape) -> bool
        ensures { result ≡ is_same self other }
    {
        self == other
    }
}

/// The scalar of a kind, of 4 bytes.
pub fn four_bytes(kind: ScalarKind) -> Scalar
    ensures { result ≡ four_bytes kind }
{
    Scalar { kind, width: 4 }
}

/// Whether both are the same.
pub fn is_same_scalar(first: Scalar, second: Scalar) -> bool
    ensures { result ≡ is_same_scalar first second }
{
    first == second
}

/// Whether a kind is that of integers.
pub fn is_integer(kind: ScalarKind) -> bool
    ensures { result ≡ is_integer kind }
{
    match kind {
        ScalarKind::Sint | ScalarKind::Uint => true,
        _ => false,
    }
}

/// Whether it is that of numbers with a sign.
pub fn is_signed(kind: ScalarKind) -> bool
    ensures { result ≡ is_signed kind }
{
    match kind {
        ScalarKind::Sint | ScalarKind::Float => true,
        _ => false,
    }
}

/// Whether it is that of floats.
pub fn is_float(kind: ScalarKind) -> bool
    ensures { result ≡ is_float kind }
{
    match kind {
        ScalarKind::Float => true,
        _ => false,
    }
}

/// Whether it is that of bools.
pub fn is_bool(kind: ScalarKind) -> bool
    ensures { result ≡ is_bool kind }
{
    match kind {
        ScalarKind::Bool => true,
        _ => false,
    }
}
