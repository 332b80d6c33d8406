//! Images, samplers, and what goes with them: what samples, loads and queries share.

ghost use Rattle.std.specs.Prelude.{◌≡◌};
ghost use Rattle.std.specs.Option.{option_copied};
ghost use Rattle.layer_expressions.specs.Images.{image_of, comparison_of, is_source, is_source_at, is_resource, has_dimension, is_float_coordinate, is_f32, is_f32_scalar, is_integer_coordinate, is_offset, is_i32, is_integer_scalar, has_levels, is_multisampled};

use ir_arena::handle::Handle;
use ir_arena::tag;
use ir_leaves::images::ImageDimension;
use ir_leaves::scalars::{ScalarKind, VectorSize};
use ir_module::expressions::Expression;
use ir_types::types::{ImageClass, TypeInner};
use layer_shapes::shapes::{Shape, is_integer};

/// An image, as its type has it.
#[derive(Clone, Copy)]
pub(crate) struct Image {
    pub dim: ImageDimension,
    pub arrayed: bool,
    pub class: ImageClass,
}

/// The image that a type is.
pub(crate) fn image_of(inner: Option<&TypeInner>) -> Option<Image>
    ensures { result ≡ image_of (option_copied inner.entry) }
{
    match inner {
        Some(
            TypeInner::Image {
                dim,
                arrayed,
                class,
            },
        ) => Some(Image {
            dim: *dim,
            arrayed: *arrayed,
            class: *class,
        }),
        _ => None,
    }
}

/// Whether the sampler that a type is compares.
pub(crate) fn comparison_of(inner: Option<&TypeInner>) -> Option<bool>
    ensures { result ≡ comparison_of (option_copied inner.entry) }
{
    match inner {
        Some(TypeInner::Sampler { comparison }) => Some(*comparison),
        _ => None,
    }
}

/// Whether an expression is a global or an argument.
fn is_source(expression: &Expression) -> bool
    ensures { result ≡ is_source expression.now }
{
    match expression {
        Expression::GlobalVariable(_) | Expression::FunctionArgument(_) => true,
        _ => false,
    }
}

/// Whether the expression with a handle is one.
fn is_source_at(expressions: &[Expression], handle: Handle<tag::Expression>) -> bool
    ensures { result ≡ is_source_at expressions.now handle }
{
    match expressions.get(handle.index()) {
        Some(expression) => is_source(expression),
        None => false,
    }
}

/// Whether an expression is where an image or a sampler comes from: a global, an argument, or an item of one.
pub(crate) fn is_resource(expressions: &[Expression], handle: Handle<tag::Expression>) -> bool
    ensures { result ≡ is_resource expressions.now handle }
{
    match expressions.get(handle.index()) {
        Some(expression) => match expression.access_base() {
            Some(base) => is_source_at(expressions, base),
            None => is_source(expression),
        },
        None => false,
    }
}

/// Whether a shape has as many components as a coordinate of this dimension.
fn has_dimension(dim: ImageDimension, shape: Shape) -> bool
    ensures { result ≡ has_dimension dim shape }
{
    match dim {
        ImageDimension::D1 => match shape {
            Shape::Scalar(_) => true,
            _ => false,
        },
        ImageDimension::D2 => match shape {
            Shape::Vector(VectorSize::Bi, _) => true,
            _ => false,
        },
        ImageDimension::D3 | ImageDimension::Cube => match shape {
            Shape::Vector(VectorSize::Tri, _) => true,
            _ => false,
        },
    }
}

/// Whether it is a coordinate of floats of this dimension.
pub(crate) fn is_float_coordinate(dim: ImageDimension, shape: Option<Shape>) -> bool
    ensures { result ≡ is_float_coordinate dim shape }
{
    match shape {
        Some(shape) => has_dimension(dim, shape) && is_f32(shape),
        None => false,
    }
}

/// Whether it is made of floats of 4 bytes.
fn is_f32(shape: Shape) -> bool
    ensures { result ≡ is_f32 shape }
{
    match shape.scalar().kind {
        ScalarKind::Float => shape.scalar().width == 4,
        _ => false,
    }
}

/// Whether it is a float of 4 bytes.
pub(crate) fn is_f32_scalar(shape: Option<Shape>) -> bool
    ensures { result ≡ is_f32_scalar shape }
{
    match shape {
        Some(Shape::Scalar(scalar)) => is_f32(Shape::Scalar(scalar)),
        _ => false,
    }
}

/// Whether it is a coordinate of integers of this dimension, which isn't a cube.
pub(crate) fn is_integer_coordinate(dim: ImageDimension, shape: Option<Shape>) -> bool
    ensures { result ≡ is_integer_coordinate dim shape }
{
    match dim {
        ImageDimension::Cube => false,
        _ => match shape {
            Some(shape) => has_dimension(dim, shape) && is_integer(shape.scalar().kind),
            None => false,
        },
    }
}

/// Whether it is an offset of this dimension, which isn't a cube: of signed integers of 4 bytes.
pub(crate) fn is_offset(dim: ImageDimension, shape: Option<Shape>) -> bool
    ensures { result ≡ is_offset dim shape }
{
    match dim {
        ImageDimension::Cube => false,
        _ => match shape {
            Some(shape) => has_dimension(dim, shape) && is_i32(shape),
            None => false,
        },
    }
}

/// Whether it is made of signed integers of 4 bytes.
fn is_i32(shape: Shape) -> bool
    ensures { result ≡ is_i32 shape }
{
    match shape.scalar().kind {
        ScalarKind::Sint => shape.scalar().width == 4,
        _ => false,
    }
}

/// Whether it is an integer scalar.
pub(crate) fn is_integer_scalar(shape: Option<Shape>) -> bool
    ensures { result ≡ is_integer_scalar shape }
{
    match shape {
        Some(Shape::Scalar(scalar)) => is_integer(scalar.kind),
        _ => false,
    }
}

/// Whether images of a class have levels of detail.
pub(crate) fn has_levels(class: ImageClass) -> bool
    ensures { result ≡ has_levels class }
{
    match class {
        ImageClass::Sampled { multi, .. } | ImageClass::Depth { multi } => !multi,
        ImageClass::External | ImageClass::Storage { .. } => false,
    }
}

/// Whether images of a class are multisampled.
pub(crate) fn is_multisampled(class: ImageClass) -> bool
    ensures { result ≡ is_multisampled class }
{
    match class {
        ImageClass::Sampled { multi, .. } | ImageClass::Depth { multi } => multi,
        ImageClass::External | ImageClass::Storage { .. } => false,
    }
}
