//! What the check lists of ImageStore and ImageAtomic share: the image, and the texel.

ghost use Rattle.std.specs.Prelude.{◌≡◌};
ghost use Rattle.std.specs.Option.{option_copied};
ghost use Rattle.check_resources.specs.walk.ImageParts.{image_fault, coordinate_points, texel_points};
ghost use Rattle.check_variables.specs.Globals.{element_of};
ghost use Rattle.check_resources.specs.Image.{global_type_at, image_global_at, is_dimension, is_integer_scalar, array_index_points};
ghost use Rattle.check_scope.specs.walk.Place.{place_at};
ghost use Rattle.check_scope.specs.walk.SeenContext.{context_of};
ghost use Rattle.check_scope.specs.walk.Table.{known};
ghost use Rattle.ir_facts.specs.Answers.{Finds, FirstOf};

use check_scope::context::BlockContext;
use check_scope::refuse::check_use;
use check_scope::roots::access_base_in;
use check_scope::table::ScopeColumn;
use check_scope::types::is_integer_kind;
use ir_arena::handle::Handle;
use ir_arena::tag;
use ir_errors::expression::ExpressionError;
use ir_errors::function::FunctionError;
use ir_leaves::images::ImageDimension;
use ir_module::expressions::Expression;
use ir_types::types::TypeInner;

/// The statement that uses an image.
#[derive(Clone, Copy)]
pub(crate) enum ImageStatement {
    Store,
    Atomic,
}

/// Which texel of an image.
#[derive(Clone, Copy)]
pub struct Texel {
    pub coordinate: Handle<tag::Expression>,
    pub array_index: Option<Handle<tag::Expression>>,
}

/// What an image asks of the texel: its dimension, and whether it has layers.
#[derive(Clone, Copy)]
pub(crate) struct ImageShape {
    pub dim: ImageDimension,
    pub arrayed: bool,
}

/// The fault of an image, of a coordinate or of an array index, inside that of its statement.
pub(crate) fn image_fault(statement: ImageStatement, error: ExpressionError) -> FunctionError
    ensures { result ≡ image_fault statement error }
{
    match statement {
        ImageStatement::Store => FunctionError::InvalidImageStore(error),
        ImageStatement::Atomic => FunctionError::InvalidImageAtomic(error),
    }
}

/// The type of the global that an image is, or of which it is an element.
pub(crate) fn image_global_at(
    context: &BlockContext,
    image: Handle<tag::Expression>,
) -> Option<Handle<tag::Type>>
    ensures { result ≡ image_global_at (context_of context.now) image }
{
    match access_base_in(context.expression(image)) {
        Some(base) => global_type_at(context, base),
        None => global_type_at(context, image),
    }
}

/// The type that the global is declared with which an expression is.
fn global_type_at(
    context: &BlockContext,
    handle: Handle<tag::Expression>,
) -> Option<Handle<tag::Type>>
    ensures { result ≡ global_type_at (context_of context.now) handle }
{
    let Some(Expression::GlobalVariable(global)) = context.expression(handle) else {
        return None;
    };
    match context
        .program
        .global_variables
        .as_slice()
        .get(global.index())
    {
        Some(variable) => Some(variable.ty),
        None => None,
    }
}

/// What a binding array has.
pub(crate) fn element_of(inner: Option<&TypeInner>) -> Option<Handle<tag::Type>>
    ensures { result ≡ element_of (option_copied inner.entry) }
{
    match inner {
        Some(TypeInner::BindingArray { base, .. }) => Some(*base),
        _ => None,
    }
}

/// Which texel: its coordinate and its array index.
#[tactic(auto, using(ir_arena::proofs::Points::first_of_both))]
pub(crate) fn check_texel(
    statement: ImageStatement,
    scope: &ScopeColumn,
    context: &BlockContext,
    shape: ImageShape,
    texel: Texel,
) -> Result<(), FunctionError>
    ensures { Finds
        (FirstOf (texel_points statement (context_of context.now) (place_at (known scope.now)) shape.dim shape.arrayed
        texel.coordinate texel.array_index))
        result }
{
    check_coordinate(statement, scope, context, shape.dim, texel.coordinate)?;
    check_array_index(statement, scope, context, shape.arrayed, texel.array_index)
}

/// The coordinate: put by every run, and of the image's dimension.
fn check_coordinate(
    statement: ImageStatement,
    scope: &ScopeColumn,
    context: &BlockContext,
    dim: ImageDimension,
    coordinate: Handle<tag::Expression>,
) -> Result<(), FunctionError>
    ensures { Finds (FirstOf (coordinate_points statement (context_of context.now) (place_at (known scope.now)) dim
        coordinate)) result }
{
    check_use(scope, coordinate)?;
    let given = match context.type_inner(coordinate) {
        Some(inner) => inner.image_storage_coordinates(),
        None => None,
    };
    if !is_dimension(dim, given) {
        let error = ExpressionError::InvalidImageCoordinateType(dim, coordinate);
        return Err(image_fault(statement, error));
    }
    Ok(())
}

fn is_dimension(dim: ImageDimension, given: Option<ImageDimension>) -> bool
    ensures { result ≡ is_dimension dim given }
{
    match given {
        Some(given) => given == dim,
        None => false,
    }
}

/// The array index: there where the image is arrayed, put by every run, and an integer.
fn check_array_index(
    statement: ImageStatement,
    scope: &ScopeColumn,
    context: &BlockContext,
    arrayed: bool,
    array_index: Option<Handle<tag::Expression>>,
) -> Result<(), FunctionError>
    ensures { Finds (FirstOf (array_index_points (image_fault statement) (context_of context.now)
        (place_at (known scope.now)) arrayed array_index)) result }
{
    match array_index {
        Some(handle) => {
            if !arrayed {
                return Err(image_fault(statement, ExpressionError::InvalidImageArrayIndex));
            }
            check_use(scope, handle)?;
            if !is_integer_scalar(context.type_inner(handle)) {
                let error = ExpressionError::InvalidImageArrayIndexType(handle);
                return Err(image_fault(statement, error));
            }
            Ok(())
        }
        None => {
            if arrayed {
                return Err(image_fault(statement, ExpressionError::InvalidImageArrayIndex));
            }
            Ok(())
        }
    }
}

/// Whether a type is an integer of any width, and no vector.
fn is_integer_scalar(inner: Option<&TypeInner>) -> bool
    ensures { result ≡ is_integer_scalar (option_copied inner.entry) }
{
    match inner {
        Some(TypeInner::Scalar(scalar)) => is_integer_kind(Some(scalar.kind)),
        _ => false,
    }
}
