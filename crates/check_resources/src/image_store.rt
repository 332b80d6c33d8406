//! The check list of ImageStore.

ghost use Rattle.std.specs.Prelude.{◌≡◌, IfOk, IfSome, IsOk};
ghost use Rattle.std.specs.Option.{option_copied};
ghost use Rattle.ir_types.specs.Members.{HasNoMembers};
ghost use Rattle.check_scope.specs.walk.Findings.{RefusesFaultsAlone};
ghost use Rattle.ir_facts.specs.Answers.{Answers, Finds, FirstOf};
ghost use Rattle.check_resources.specs.walk.ImageParts.{stored_texel_points, texel_value_points};
ghost use Rattle.check_resources.specs.Image.{stored_format};
ghost use Rattle.check_resources.specs.ImageStore.{stored_type, stored_shape, image_store_points};
ghost use Rattle.check_scope.specs.walk.Place.{place_at};
ghost use Rattle.check_scope.specs.walk.SeenContext.{context_of};
ghost use Rattle.check_scope.specs.ExpressionTypes.{type_at};
ghost use Rattle.check_scope.specs.walk.Table.{known};

use crate::image::{ImageShape, ImageStatement, Texel, check_texel, element_of, image_global_at};
use check_scope::context::BlockContext;
use check_scope::refuse::{answer, check_use};
use check_scope::roots::access_base_in;
use check_scope::table::ScopeColumn;
use ir_arena::handle::Handle;
use ir_arena::span::Span;
use ir_arena::{Refused, tag};
use ir_errors::expression::ExpressionError;
use ir_errors::function::FunctionError;
use ir_leaves::images::StorageFormat;
use ir_leaves::scalars::{Scalar, VectorSize};
use ir_types::type_methods::inner_at;
use ir_types::types::{ImageClass, TypeInner};
use std::alloc::{AllocError, Global};

/// ImageStore: its image, the texel, and the value.
pub fn check_image_store(
    scope: &ScopeColumn,
    context: &BlockContext,
    image: Handle<tag::Expression>,
    texel: Texel,
    value: Handle<tag::Expression>,
    span: Span,
) -> Result<(), Refused<FunctionError>>
    ensures fault { Answers (FirstOf (image_store_points (context_of context.now) (place_at (known scope.now)) image
        texel.coordinate texel.array_index value)) result }
    ensures refused { RefusesFaultsAlone
        (image_store_points (context_of context.now) (place_at (known scope.now)) image texel.coordinate texel.array_index value)
        result }
{
    let alloc = scope.allocator();
    let given = type_of(alloc, context, value)?;
    let checked = match check_stored_texel(scope, context, image, texel) {
        Ok(format) => check_texel_value(scope, context, format, value, given),
        Err(error) => Err(error),
    };
    answer(alloc, checked, span)
}

/// The type of a value, for the fault that names it. Only that of a struct takes memory.
fn type_of(
    alloc: Global,
    context: &BlockContext,
    value: Handle<tag::Expression>,
) -> Result<Option<TypeInner>, AllocError>
    ensures given { IfOk result (λ given. given ≡ type_at (context_of context.now) value) }
    ensures without_memory { IfSome (type_at (context_of context.now) value) HasNoMembers → IsOk result }
{
    match context.type_inner(value) {
        Some(inner) => Ok(Some(inner.clone(alloc)?)),
        None => Ok(None),
    }
}

/// The image and the texel. Returns the format of the image's texels.
fn check_stored_texel(
    scope: &ScopeColumn,
    context: &BlockContext,
    image: Handle<tag::Expression>,
    texel: Texel,
) -> Result<StorageFormat, FunctionError>
    ensures fault { Finds (FirstOf (stored_texel_points (context_of context.now) (place_at (known scope.now)) image
        texel.coordinate texel.array_index)) result }
    ensures format { IfOk result (λ format. format ≡ stored_format (stored_shape (context_of context.now) image).class) }
{
    let Some(ty) = image_global_at(context, image) else {
        let error = ExpressionError::ExpectedGlobalVariable;
        return Err(FunctionError::InvalidImageStore(error));
    };
    let is_element = access_base_in(context.expression(image)).is_some();
    if is_element && element_of(inner_at(context.program.types.as_slice(), ty)).is_none() {
        let error = ExpressionError::ExpectedBindingArrayType(ty);
        return Err(FunctionError::InvalidImageStore(error));
    }
    let Some(
        TypeInner::Image {
            dim,
            arrayed,
            class,
        },
    ) = stored_type(context, is_element, ty)
    else {
        let error = ExpressionError::ExpectedImageType(ty);
        return Err(FunctionError::InvalidImageStore(error));
    };
    let ImageClass::Storage { format, .. } = *class else {
        let error = ExpressionError::InvalidImageClass(*class);
        return Err(FunctionError::InvalidImageStore(error));
    };
    let shape = ImageShape {
        dim: *dim,
        arrayed: *arrayed,
    };
    check_texel(ImageStatement::Store, scope, context, shape, texel)?;
    Ok(format)
}

/// The type of a global, or that of its elements.
fn stored_type<'a>(
    context: &BlockContext<'a>,
    is_element: bool,
    ty: Handle<tag::Type>,
) -> Option<&'a TypeInner>
    ensures { option_copied result ≡ stored_type (context_of context.now).program.types is_element ty }
{
    if is_element {
        match element_of(inner_at(context.program.types.as_slice(), ty)) {
            Some(element) => inner_at(context.program.types.as_slice(), element),
            None => None,
        }
    } else {
        inner_at(context.program.types.as_slice(), ty)
    }
}

/// The value: put by every run, and what a texel holds.
fn check_texel_value(
    scope: &ScopeColumn,
    context: &BlockContext,
    format: StorageFormat,
    value: Handle<tag::Expression>,
    given: Option<TypeInner>,
) -> Result<(), FunctionError>
    requires { given ≡ type_at (context_of context.now) value }
    ensures { Finds (FirstOf (texel_value_points (context_of context.now) (place_at (known scope.now)) format value)) result }
{
    check_use(scope, value)?;
    let expected_ty = TypeInner::Vector {
        size: VectorSize::Quad,
        scalar: Scalar::from(format),
    };
    match given {
        Some(actual_ty) => {
            if actual_ty == expected_ty {
                return Ok(());
            }
            Err(FunctionError::InvalidStoreValue {
                actual: value,
                actual_ty,
                expected_ty,
            })
        }
        None => Ok(()),
    }
}
