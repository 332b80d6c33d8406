//! The types of image samples.

ghost use Rattle.std.specs.Prelude.{◌≡◌, ◌≤◌};
ghost use Rattle.ir_arena.specs.Points.{first_fault};
ghost use Rattle.layer_expressions.specs.Sampling.{ones, level_count, before_level, before_depth, shape_if, comparison_among, has_level, has_gradients, sampled_of, takes_class, can_be_gathered, can_be_clamped, takes_dimension, is_zero, is_depth, takes_exact, takes_level, fits_level, takes_sampler, takes_integer, sample_points, four_of, sample_shape, are_resources, image_among, sample_type};

use crate::images::{
    Image, comparison_of, image_of, is_f32_scalar, is_float_coordinate, is_integer_scalar,
    is_offset, is_resource,
};
use crate::operands::{shape_of_operand, type_of_operand};
use crate::rules::Rule;
use ir_arena::handle::Handle;
use ir_arena::tag;
use ir_leaves::images::ImageDimension;
use ir_leaves::scalars::{Scalar, ScalarKind, VectorSize};
use ir_module::expressions::Expression;
use ir_types::types::{ImageClass, Type};
use ir_types::typifier::TypeResolution;
use layer_forms::{LevelKind, SampleForm};
use layer_shapes::shapes::{Shape, four_bytes, is_float};

/// What is known of the operands of an image sample after the image.
#[derive(Clone, Copy)]
pub(crate) struct Sampled {
    pub comparison: Option<bool>,
    pub coordinate: Option<Shape>,
    pub array_index: Option<Shape>,
    pub offset: Option<Shape>,
    /// Of the level: the exact one, the bias, or the first gradient.
    pub level: Option<Shape>,
    pub second_gradient: Option<Shape>,
    pub depth_ref: Option<Shape>,
}

/// 1 where it is there, else 0.
pub(crate) fn ones(is_there: bool) -> usize
    ensures value { result ≡ ones is_there }
    ensures small { result ≤ 1 }
{
    if is_there { 1 } else { 0 }
}

/// How many operands a level has.
fn level_count(level: LevelKind) -> usize
    ensures value { result ≡ level_count level }
    ensures small { result ≤ 2 }
{
    match level {
        LevelKind::Auto | LevelKind::Zero => 0,
        LevelKind::Exact | LevelKind::Bias => 1,
        LevelKind::Gradient => 2,
    }
}

/// How many operands there are before the level.
fn before_level(form: SampleForm) -> usize
    ensures value { result ≡ before_level form }
    ensures small { result ≤ 5 }
{
    let array_index = ones(form.has_array_index);
    let offset = ones(form.has_offset);
    3 + array_index + offset
}

/// How many operands there are before the depth reference.
fn before_depth(form: SampleForm) -> usize
    ensures value { result ≡ before_depth form }
    ensures small { result ≤ 7 }
{
    let before = before_level(form);
    let level = level_count(form.level);
    before + level
}

/// The shape of the operand at a place, where it is there.
pub(crate) fn shape_if(
    types: &[Type],
    earlier: &[TypeResolution],
    operands: &[Handle<tag::Expression>],
    is_there: bool,
    place: usize,
) -> Option<Shape>
    ensures { result ≡ shape_if types.now earlier.now operands.now is_there place }
{
    if is_there {
        match operands.get(place) {
            Some(operand) => shape_of_operand(types, earlier, *operand),
            None => None,
        }
    } else {
        None
    }
}

/// Whether the sampler among the operands compares.
fn comparison_among(
    types: &[Type],
    earlier: &[TypeResolution],
    operands: &[Handle<tag::Expression>],
) -> Option<bool>
    ensures { result ≡ comparison_among types.now earlier.now operands.now }
{
    match operands.get(1) {
        Some(sampler) => comparison_of(type_of_operand(types, earlier, *sampler)),
        None => None,
    }
}

/// Whether a level has an operand.
fn has_level(level: LevelKind) -> bool
    ensures { result ≡ has_level level }
{
    match level {
        LevelKind::Auto | LevelKind::Zero => false,
        LevelKind::Exact | LevelKind::Bias | LevelKind::Gradient => true,
    }
}

/// Whether a level has two operands.
fn has_gradients(level: LevelKind) -> bool
    ensures { result ≡ has_gradients level }
{
    match level {
        LevelKind::Gradient => true,
        _ => false,
    }
}

/// The operands of an image sample of this form.
fn sampled_of(
    types: &[Type],
    earlier: &[TypeResolution],
    form: SampleForm,
    operands: &[Handle<tag::Expression>],
) -> Sampled
    ensures { result ≡ sampled_of types.now earlier.now form operands.now }
{
    let array_index = ones(form.has_array_index);
    let level = before_level(form);
    let depth = before_depth(form);
    Sampled {
        comparison: comparison_among(types, earlier, operands),
        coordinate: shape_if(types, earlier, operands, true, 2),
        array_index: shape_if(types, earlier, operands, form.has_array_index, 3),
        offset: shape_if(types, earlier, operands, form.has_offset, 3 + array_index),
        level: shape_if(types, earlier, operands, has_level(form.level), level),
        second_gradient: shape_if(
            types,
            earlier,
            operands,
            has_gradients(form.level),
            level + 1,
        ),
        depth_ref: shape_if(types, earlier, operands, form.has_depth_ref, depth),
    }
}

/// Whether images of a class can be sampled so.
fn takes_class(form: SampleForm, class: ImageClass) -> bool
    ensures { result ≡ takes_class form class }
{
    match class {
        ImageClass::Sampled { kind, multi } => {
            !multi && !form.has_depth_ref && (form.gather.is_some() || is_float(kind))
        }
        ImageClass::Depth { multi } => !multi && !form.clamp_to_edge,
        ImageClass::External => form.clamp_to_edge && !form.has_depth_ref,
        ImageClass::Storage { .. } => false,
    }
}

/// Whether images of a dimension can be gathered.
fn can_be_gathered(dim: ImageDimension) -> bool
    ensures { result ≡ can_be_gathered dim }
{
    match dim {
        ImageDimension::D2 | ImageDimension::Cube => true,
        ImageDimension::D1 | ImageDimension::D3 => false,
    }
}

/// Whether images of a dimension can be clamped to the edge.
fn can_be_clamped(dim: ImageDimension) -> bool
    ensures { result ≡ can_be_clamped dim }
{
    match dim {
        ImageDimension::D2 => true,
        _ => false,
    }
}

/// Whether images of a dimension can be gathered, where they are, and clamped to the edge, where they are.
fn takes_dimension(form: SampleForm, image: &Image) -> bool
    ensures { result ≡ takes_dimension form image.now }
{
    let gathers = form.gather.is_none() || can_be_gathered(image.dim);
    let clamps = can_be_clamped(image.dim)
        && !image.arrayed
        && !form.has_offset
        && form.gather.is_none();
    gathers && (!form.clamp_to_edge || clamps)
}

/// Whether the level is that of the whole image.
fn is_zero(level: LevelKind) -> bool
    ensures { result ≡ is_zero level }
{
    match level {
        LevelKind::Zero => true,
        _ => false,
    }
}

/// Whether images of a class hold depths.
fn is_depth(class: ImageClass) -> bool
    ensures { result ≡ is_depth class }
{
    match class {
        ImageClass::Depth { .. } => true,
        _ => false,
    }
}

/// Whether an exact level is of the right type.
fn takes_exact(class: ImageClass, level: Option<Shape>) -> bool
    ensures { result ≡ takes_exact class level }
{
    if is_depth(class) {
        is_integer_scalar(level)
    } else {
        is_f32_scalar(level)
    }
}

/// Whether a level has the right operands.
fn takes_level(form: SampleForm, image: &Image, sampled: &Sampled) -> bool
    ensures { result ≡ takes_level form.level image.now sampled.now }
{
    match form.level {
        LevelKind::Auto | LevelKind::Zero => true,
        LevelKind::Exact => takes_exact(image.class, sampled.level),
        LevelKind::Bias => !is_depth(image.class) && is_f32_scalar(sampled.level),
        LevelKind::Gradient => {
            !is_depth(image.class)
                && is_float_coordinate(image.dim, sampled.level)
                && is_float_coordinate(image.dim, sampled.second_gradient)
        }
    }
}

/// Whether a gather or clamping asks for the level of the whole image, and a depth reference for it or the automatic one.
fn fits_level(form: SampleForm) -> bool
    ensures { result ≡ fits_level form }
{
    let whole = form.gather.is_some() || form.clamp_to_edge;
    (!whole || is_zero(form.level)) && (!form.has_depth_ref || !has_level(form.level))
}

/// Whether the sampler compares exactly where there is a depth reference.
fn takes_sampler(form: SampleForm, comparison: Option<bool>) -> bool
    ensures { result ≡ takes_sampler form comparison }
{
    match comparison {
        Some(comparison) => {
            if form.has_depth_ref {
                comparison
            } else {
                !comparison
            }
        }
        None => false,
    }
}

/// Whether an operand is there exactly where it is asked for, an integer scalar: an array index, a sample, a level.
pub(crate) fn takes_integer(is_asked: bool, is_there: bool, operand: Option<Shape>) -> bool
    ensures { result ≡ takes_integer is_asked is_there operand }
{
    if is_asked {
        is_there && is_integer_scalar(operand)
    } else {
        !is_there
    }
}

/// The first rule that a sample of an image breaks.
fn sample_fault(form: SampleForm, image: &Image, sampled: &Sampled) -> Option<Rule>
    ensures { result ≡ first_fault (sample_points form image.now sampled.now) }
{
    if !takes_class(form, image.class) || !takes_dimension(form, image) {
        return Some(Rule::Image);
    }
    if !takes_sampler(form, sampled.comparison) {
        return Some(Rule::Sampler);
    }
    if !is_float_coordinate(image.dim, sampled.coordinate) {
        return Some(Rule::Coordinate);
    }
    if !takes_integer(image.arrayed, form.has_array_index, sampled.array_index) {
        return Some(Rule::ArrayIndex);
    }
    if form.has_offset && !is_offset(image.dim, sampled.offset) {
        return Some(Rule::Offset);
    }
    if !fits_level(form) || !takes_level(form, image, sampled) {
        return Some(Rule::Level);
    }
    if form.has_depth_ref && !is_f32_scalar(sampled.depth_ref) {
        return Some(Rule::DepthReference);
    }
    None
}

/// Four of a kind, of 4 bytes.
pub(crate) fn four_of(kind: ScalarKind) -> Shape
    ensures { result ≡ four_of kind }
{
    Shape::Vector(VectorSize::Quad, four_bytes(kind))
}

/// What a sample of images of a class gives.
fn sample_shape(class: ImageClass, gathers: bool) -> Shape
    ensures { result ≡ sample_shape class gathers }
{
    match class {
        ImageClass::Sampled { kind, .. } => four_of(kind),
        ImageClass::Depth { .. } => {
            if gathers {
                four_of(ScalarKind::Float)
            } else {
                Shape::Scalar(Scalar::F32)
            }
        }
        ImageClass::External | ImageClass::Storage { .. } => four_of(ScalarKind::Float),
    }
}

/// Whether image and sampler come from where they may.
fn are_resources(expressions: &[Expression], operands: &[Handle<tag::Expression>]) -> bool
    ensures { result ≡ are_resources expressions.now operands.now }
{
    match operands {
        [image, sampler, ..] => is_resource(expressions, *image)
            && is_resource(expressions, *sampler),
        _ => false,
    }
}

/// The image among the operands.
pub(crate) fn image_among(
    types: &[Type],
    earlier: &[TypeResolution],
    operands: &[Handle<tag::Expression>],
) -> Option<Image>
    ensures { result ≡ image_among types.now earlier.now operands.now }
{
    match operands.get(0) {
        Some(image) => image_of(type_of_operand(types, earlier, *image)),
        None => None,
    }
}

/// The type of an `ImageSample`.
pub(crate) fn sample_type(
    types: &[Type],
    expressions: &[Expression],
    earlier: &[TypeResolution],
    operands: &[Handle<tag::Expression>],
    detail: u32,
) -> Result<Shape, Rule>
    ensures { result ≡ sample_type types.now expressions.now earlier.now operands.now detail }
{
    let Some(form) = SampleForm::from_detail(detail) else {
        return Err(Rule::Detail);
    };
    if operands.len() != before_depth(form) + ones(form.has_depth_ref) {
        return Err(Rule::Detail);
    }
    if !are_resources(expressions, operands) {
        return Err(Rule::Image);
    }
    let Some(image) = image_among(types, earlier, operands) else {
        return Err(Rule::Image);
    };
    let sampled = sampled_of(types, earlier, form, operands);
    match sample_fault(form, &image, &sampled) {
        Some(rule) => Err(rule),
        None => Ok(sample_shape(image.class, form.gather.is_some())),
    }
}
