//! The types of image loads and image queries.

ghost use Rattle.std.specs.Prelude.{◌≡◌, ◌≤◌};
ghost use Rattle.ir_arena.specs.Points.{first_fault};
ghost use Rattle.layer_expressions.specs.Loading.{before_level, loaded_of, is_readable, load_points, load_shape, is_resource_first, load_type, size_shape, queried, can_be_asked, query_shape, takes_query_level, is_size, query_type};

use crate::images::{
    Image, has_levels, is_integer_coordinate, is_integer_scalar, is_multisampled, is_resource,
};
use crate::rules::Rule;
use crate::sampling::{four_of, image_among, ones, shape_if, takes_integer};
use ir_arena::handle::Handle;
use ir_arena::tag;
use ir_flags::ir::StorageAccess;
use ir_leaves::images::ImageDimension;
use ir_leaves::scalars::{Scalar, ScalarKind, VectorSize};
use ir_module::expressions::Expression;
use ir_types::types::{ImageClass, Type};
use ir_types::typifier::TypeResolution;
use layer_forms::{ImageQuery, Loading};
use layer_shapes::shapes::Shape;

/// What is known of the operands of an image load after the image.
#[derive(Clone, Copy)]
pub(crate) struct Loaded {
    pub coordinate: Option<Shape>,
    pub array_index: Option<Shape>,
    pub sample: Option<Shape>,
    pub level: Option<Shape>,
}

/// How many operands there are before the level.
fn before_level(form: Loading) -> usize
    ensures value { result ≡ before_level form }
    ensures small { result ≤ 4 }
{
    let array_index = ones(form.has_array_index);
    let sample = ones(form.has_sample);
    2 + array_index + sample
}

/// The operands of an image load of this form.
fn loaded_of(
    types: &[Type],
    earlier: &[TypeResolution],
    form: Loading,
    operands: &[Handle<tag::Expression>],
) -> Loaded
    ensures { result ≡ loaded_of types.now earlier.now form operands.now }
{
    let array_index = ones(form.has_array_index);
    let level = before_level(form);
    Loaded {
        coordinate: shape_if(types, earlier, operands, true, 1),
        array_index: shape_if(types, earlier, operands, form.has_array_index, 2),
        sample: shape_if(types, earlier, operands, form.has_sample, 2 + array_index),
        level: shape_if(types, earlier, operands, form.has_level, level),
    }
}

/// Whether texels of images of a class can be loaded.
fn is_readable(class: ImageClass) -> bool
    ensures { result ≡ is_readable class }
{
    match class {
        ImageClass::Storage { access, .. } => access.contains(StorageAccess::LOAD),
        ImageClass::Sampled { .. } | ImageClass::Depth { .. } | ImageClass::External => true,
    }
}

/// The first rule that a load of an image breaks.
fn load_fault(form: Loading, image: &Image, loaded: &Loaded) -> Option<Rule>
    ensures { result ≡ first_fault (load_points form image.now loaded.now) }
{
    if !is_readable(image.class) {
        return Some(Rule::Image);
    }
    if !is_integer_coordinate(image.dim, loaded.coordinate) {
        return Some(Rule::Coordinate);
    }
    if !takes_integer(image.arrayed, form.has_array_index, loaded.array_index) {
        return Some(Rule::ArrayIndex);
    }
    if !takes_integer(is_multisampled(image.class), form.has_sample, loaded.sample) {
        return Some(Rule::Sample);
    }
    if !takes_integer(has_levels(image.class), form.has_level, loaded.level) {
        return Some(Rule::Level);
    }
    None
}

/// What a load from images of a class gives.
fn load_shape(class: ImageClass) -> Shape
    ensures { result ≡ load_shape class }
{
    match class {
        ImageClass::Sampled { kind, .. } => four_of(kind),
        ImageClass::Depth { .. } => Shape::Scalar(Scalar::F32),
        ImageClass::External => four_of(ScalarKind::Float),
        ImageClass::Storage { format, .. } => {
            Shape::Vector(VectorSize::Quad, Scalar::from(format))
        }
    }
}

/// Whether the image comes from where it may.
fn is_resource_first(expressions: &[Expression], operands: &[Handle<tag::Expression>]) -> bool
    ensures { result ≡ is_resource_first expressions.now operands.now }
{
    match operands.get(0) {
        Some(image) => is_resource(expressions, *image),
        None => false,
    }
}

/// The type of an `ImageLoad`.
pub(crate) fn load_type(
    types: &[Type],
    expressions: &[Expression],
    earlier: &[TypeResolution],
    operands: &[Handle<tag::Expression>],
    detail: u32,
) -> Result<Shape, Rule>
    ensures { result ≡ load_type types.now expressions.now earlier.now operands.now detail }
{
    let Some(form) = Loading::from_detail(detail) else {
        return Err(Rule::Detail);
    };
    if operands.len() != before_level(form) + ones(form.has_level) {
        return Err(Rule::Detail);
    }
    if !is_resource_first(expressions, operands) {
        return Err(Rule::Image);
    }
    let Some(image) = image_among(types, earlier, operands) else {
        return Err(Rule::Image);
    };
    let loaded = loaded_of(types, earlier, form, operands);
    match load_fault(form, &image, &loaded) {
        Some(rule) => Err(rule),
        None => Ok(load_shape(image.class)),
    }
}

/// The size of an image of a dimension.
fn size_shape(dim: ImageDimension) -> Shape
    ensures { result ≡ size_shape dim }
{
    match dim {
        ImageDimension::D1 => Shape::Scalar(Scalar::U32),
        ImageDimension::D2 | ImageDimension::Cube => Shape::Vector(VectorSize::Bi, Scalar::U32),
        ImageDimension::D3 => Shape::Vector(VectorSize::Tri, Scalar::U32),
    }
}

/// What a query of an image gives, where it can be asked.
fn queried(query: ImageQuery, image: &Image) -> Option<Shape>
    ensures { result ≡ queried query image.now }
{
    if can_be_asked(query, image) {
        Some(query_shape(query, image.dim))
    } else {
        None
    }
}

/// Whether the query can be asked of the image.
fn can_be_asked(query: ImageQuery, image: &Image) -> bool
    ensures { result ≡ can_be_asked query image.now }
{
    match query {
        ImageQuery::Size => true,
        ImageQuery::NumLevels => has_levels(image.class),
        ImageQuery::NumLayers => image.arrayed,
        ImageQuery::NumSamples => is_multisampled(image.class),
    }
}

/// What a query gives.
fn query_shape(query: ImageQuery, dim: ImageDimension) -> Shape
    ensures { result ≡ query_shape query dim }
{
    match query {
        ImageQuery::Size => size_shape(dim),
        ImageQuery::NumLevels | ImageQuery::NumLayers | ImageQuery::NumSamples => {
            Shape::Scalar(Scalar::U32)
        }
    }
}

/// Whether a query has the operands that it can have: the size of an image with levels may be that of one.
fn takes_query_level(
    types: &[Type],
    earlier: &[TypeResolution],
    query: ImageQuery,
    image: &Image,
    operands: &[Handle<tag::Expression>],
) -> bool
    ensures { result ≡ takes_query_level types.now earlier.now query image.now operands.now }
{
    if operands.len() == 1 {
        return true;
    }
    let level = shape_if(types, earlier, operands, operands.len() == 2, 1);
    is_size(query) && has_levels(image.class) && is_integer_scalar(level)
}

/// Whether a query asks for the size.
fn is_size(query: ImageQuery) -> bool
    ensures { result ≡ is_size query }
{
    match query {
        ImageQuery::Size => true,
        _ => false,
    }
}

/// The type of an `ImageQuery`.
pub(crate) fn query_type(
    types: &[Type],
    expressions: &[Expression],
    earlier: &[TypeResolution],
    operands: &[Handle<tag::Expression>],
    detail: u32,
) -> Result<Shape, Rule>
    ensures { result ≡ query_type types.now expressions.now earlier.now operands.now detail }
{
    let Some(query) = ImageQuery::from_detail(detail) else {
        return Err(Rule::Detail);
    };
    if !is_resource_first(expressions, operands) {
        return Err(Rule::Image);
    }
    let Some(image) = image_among(types, earlier, operands) else {
        return Err(Rule::Image);
    };
    if !takes_query_level(types, earlier, query, &image, operands) {
        return Err(Rule::Level);
    }
    match queried(query, &image) {
        Some(shape) => Ok(shape),
        None => Err(Rule::Image),
    }
}
