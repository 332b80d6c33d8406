//! The check list of ImageAtomic.

ghost use Rattle.std.specs.Prelude.{◌≡◌};
ghost use Rattle.std.specs.Option.{option_copied};
ghost use Rattle.ir_types.specs.Types.{inner_at};
ghost use Rattle.check_scope.specs.walk.Findings.{RefusesFaultsAlone};
ghost use Rattle.ir_facts.specs.Answers.{Answers, Finds, FirstOf};
ghost use Rattle.check_resources.specs.walk.ImageParts.{changed_points, changed_format_points, changed_value_points, changed_class_points};
ghost use Rattle.check_resources.specs.ImageAtomic.{element_or_itself, is_done_on_texels, operation_points, format_points, image_atomic_points};
ghost use Rattle.check_scope.specs.walk.Place.{place_at};
ghost use Rattle.check_scope.specs.walk.SeenContext.{context_of};
ghost use Rattle.check_scope.specs.walk.Table.{known};

use crate::image::{ImageShape, ImageStatement, Texel, check_texel, image_global_at};
use check_scope::context::BlockContext;
use check_scope::refuse::{answer, check_use};
use check_scope::table::ScopeColumn;
use check_scope::types::is_scalar;
use ir_arena::handle::Handle;
use ir_arena::span::Span;
use ir_arena::{Refused, tag};
use ir_errors::expression::ExpressionError;
use ir_errors::function::FunctionError;
use ir_flags::capabilities::Capabilities;
use ir_flags::ir::StorageAccess;
use ir_leaves::images::StorageFormat;
use ir_leaves::scalars::Scalar;
use ir_statements::operations::AtomicFunction;
use ir_types::type_methods::inner_at;
use ir_types::types::{ImageClass, TypeInner};

/// An operation on a texel: which texel, what is done, and with what value.
#[derive(Clone, Copy)]
pub struct TexelOperation {
    pub texel: Texel,
    pub fun: AtomicFunction,
    pub value: Handle<tag::Expression>,
}

/// ImageAtomic: its image, the texel, the operation, and the value.
pub fn check_image_atomic(
    scope: &ScopeColumn,
    context: &BlockContext,
    image: Handle<tag::Expression>,
    operation: TexelOperation,
    span: Span,
) -> Result<(), Refused<FunctionError>>
    ensures fault { Answers (FirstOf (image_atomic_points (context_of context.now) (place_at (known scope.now)) image
        operation.texel.coordinate operation.texel.array_index operation.fun operation.value)) result }
    ensures refused { RefusesFaultsAlone
        (image_atomic_points (context_of context.now) (place_at (known scope.now)) image operation.texel.coordinate
        operation.texel.array_index operation.fun operation.value)
        result }
{
    let checked = check_image_atomic_points(scope, context, image, operation);
    answer(scope.allocator(), checked, span)
}

/// All that is checked of an operation on a texel.
#[tactic(auto, using(ir_arena::proofs::Points::first_of_both))]
fn check_image_atomic_points(
    scope: &ScopeColumn,
    context: &BlockContext,
    image: Handle<tag::Expression>,
    operation: TexelOperation,
) -> Result<(), FunctionError>
    ensures { Finds (FirstOf (image_atomic_points (context_of context.now) (place_at (known scope.now)) image
        operation.texel.coordinate operation.texel.array_index operation.fun operation.value)) result }
{
    let Some(ty) = image_global_at(context, image) else {
        let error = ExpressionError::ExpectedGlobalVariable;
        return Err(FunctionError::InvalidImageAtomic(error));
    };
    let Some(
        TypeInner::Image {
            dim,
            arrayed,
            class,
        },
    ) = changed_type(context, ty)
    else {
        let error = ExpressionError::ExpectedImageType(ty);
        return Err(FunctionError::InvalidImageAtomic(error));
    };
    let shape = ImageShape {
        dim: *dim,
        arrayed: *arrayed,
    };
    check_changed_image(scope, context, shape, *class, operation)
}

/// The type of a global, or what a binding array has.
fn changed_type<'a>(context: &BlockContext<'a>, ty: Handle<tag::Type>) -> Option<&'a TypeInner>
    ensures { option_copied result
        ≡ element_or_itself (context_of context.now).program.types (inner_at (context_of context.now).program.types ty) }
{
    match inner_at(context.program.types.as_slice(), ty) {
        Some(TypeInner::BindingArray { base, .. }) => inner_at(
            context.program.types.as_slice(),
            *base,
        ),
        inner => inner,
    }
}

/// The texel, which comes before what is asked of the image.
#[tactic(auto, using(ir_arena::proofs::Points::first_of_both))]
fn check_changed_image(
    scope: &ScopeColumn,
    context: &BlockContext,
    shape: ImageShape,
    class: ImageClass,
    operation: TexelOperation,
) -> Result<(), FunctionError>
    ensures { Finds (FirstOf (changed_points (context_of context.now) (place_at (known scope.now)) shape.dim
        shape.arrayed operation.texel.coordinate operation.texel.array_index class operation.fun
        operation.value)) result }
{
    check_texel(
        ImageStatement::Atomic,
        scope,
        context,
        shape,
        operation.texel,
    )?;
    check_class(scope, context, class, &operation.fun, operation.value)
}

/// The class of the image, its access, the operation, and the value.
fn check_class(
    scope: &ScopeColumn,
    context: &BlockContext,
    class: ImageClass,
    fun: &AtomicFunction,
    value: Handle<tag::Expression>,
) -> Result<(), FunctionError>
    ensures { Finds (FirstOf (changed_class_points (context_of context.now) (place_at (known scope.now)) class fun.now
        value)) result }
{
    let ImageClass::Storage { format, access } = class else {
        let error = ExpressionError::InvalidImageClass(class);
        return Err(FunctionError::InvalidImageAtomic(error));
    };
    if !access.contains(StorageAccess::ATOMIC) {
        let error = ExpressionError::InvalidImageStorageAccess(access);
        return Err(FunctionError::InvalidImageAtomic(error));
    }
    check_changed(scope, context, fun, value, format)
}

/// The format and the value.
#[tactic(auto, using(ir_arena::proofs::Points::first_of_both))]
fn check_changed(
    scope: &ScopeColumn,
    context: &BlockContext,
    fun: &AtomicFunction,
    value: Handle<tag::Expression>,
    format: StorageFormat,
) -> Result<(), FunctionError>
    ensures { Finds (FirstOf (changed_format_points (context_of context.now) (place_at (known scope.now)) format fun.now
        value)) result }
{
    check_format(context.settings.capabilities, format, fun)?;
    check_value(scope, context, format, value)
}

/// What the format asks for.
fn check_format(
    capabilities: Capabilities,
    format: StorageFormat,
    fun: &AtomicFunction,
) -> Result<(), FunctionError>
    ensures { Finds (FirstOf (format_points capabilities format fun.now)) result }
{
    match format {
        StorageFormat::R64Uint => {
            let needed = Capabilities::TEXTURE_INT64_ATOMIC;
            check_operation(capabilities, needed, fun.is_min_or_max(), fun)
        }
        StorageFormat::R32Sint | StorageFormat::R32Uint => {
            let needed = Capabilities::TEXTURE_ATOMIC;
            check_operation(capabilities, needed, is_done_on_texels(fun), fun)
        }
        _ => {
            let error = ExpressionError::InvalidImageFormat(format);
            Err(FunctionError::InvalidImageAtomic(error))
        }
    }
}

/// An operation that needs a capability, and is one of those that are done.
fn check_operation(
    capabilities: Capabilities,
    needed: Capabilities,
    is_done: bool,
    fun: &AtomicFunction,
) -> Result<(), FunctionError>
    ensures { Finds (FirstOf (operation_points capabilities needed is_done fun.now)) result }
{
    if !capabilities.contains(needed) {
        return Err(FunctionError::MissingCapability(needed));
    }
    if !is_done {
        return Err(FunctionError::InvalidImageAtomicFunction(*fun));
    }
    Ok(())
}

/// Whether an operation is done on texels of 32 bits.
fn is_done_on_texels(fun: &AtomicFunction) -> bool
    ensures { result ≡ is_done_on_texels fun.now }
{
    matches!(
        fun,
        AtomicFunction::Add
            | AtomicFunction::And
            | AtomicFunction::ExclusiveOr
            | AtomicFunction::InclusiveOr
            | AtomicFunction::Min
            | AtomicFunction::Max
    )
}

/// The value: put by every run, and the format's scalar.
fn check_value(
    scope: &ScopeColumn,
    context: &BlockContext,
    format: StorageFormat,
    value: Handle<tag::Expression>,
) -> Result<(), FunctionError>
    ensures { Finds (FirstOf (changed_value_points (context_of context.now) (place_at (known scope.now)) format
        value)) result }
{
    check_use(scope, value)?;
    if !is_scalar(Scalar::from(format), context.type_inner(value)) {
        return Err(FunctionError::InvalidImageAtomicValue(value));
    }
    Ok(())
}
