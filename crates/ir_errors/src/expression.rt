//! Errors of expressions.

ghost use Rattle.std.specs.Prelude.{◌≡◌};
ghost use Rattle.ir_errors.specs.Names.{expression_error_name};

use ir_arena::handle::Handle;
use ir_arena::tag;
use ir_flags::ir::StorageAccess;
use ir_leaves::images::{ImageDimension, StorageFormat};
use ir_types::types::ImageClass;
use std::fmt;

/// What is wrong with an expression, or with an operand of a statement.
#[derive(Clone, Copy, PartialEq, Eq, Debug)]
pub enum ExpressionError {
    /// It is not in scope where it is used, or not every run has emitted it.
    NotInScope,
    /// The image is not a global variable, and not an element of one.
    ExpectedGlobalVariable,
    /// The image is an element of a global of this type, which is not a binding array.
    ExpectedBindingArrayType(Handle<tag::Type>),
    /// The global is of this type, which is not an image.
    ExpectedImageType(Handle<tag::Type>),
    /// The operation isn't supported on images of this class.
    InvalidImageClass(ImageClass),
    /// The coordinate doesn't fit an image of this dimension.
    InvalidImageCoordinateType(ImageDimension, Handle<tag::Expression>),
    /// There is an array index and the image isn't arrayed, or the other way round.
    InvalidImageArrayIndex,
    /// The array index is not an integer scalar.
    InvalidImageArrayIndexType(Handle<tag::Expression>),
    /// The image is declared with this access, which doesn't allow the operation.
    InvalidImageStorageAccess(StorageAccess),
    /// The operation isn't supported on texels of this format.
    InvalidImageFormat(StorageFormat),
    /// The layer below refuses it, for the reason with this number.
    Lower(u32),
}

impl ExpressionError {
    /// The variant's name, as naga has it.
    #[tactic(auto, unfolding(crate::specs::Names::expression_error_name))]
    pub fn name(&self) -> &'static str
        ensures { result.now ≡ expression_error_name self.now }
    {
        match self {
            ExpressionError::NotInScope => "NotInScope",
            ExpressionError::ExpectedGlobalVariable => "ExpectedGlobalVariable",
            ExpressionError::ExpectedBindingArrayType(_) => "ExpectedBindingArrayType",
            ExpressionError::ExpectedImageType(_) => "ExpectedImageType",
            ExpressionError::InvalidImageClass(_) => "InvalidImageClass",
            ExpressionError::InvalidImageCoordinateType(_, _) => "InvalidImageCoordinateType",
            ExpressionError::InvalidImageArrayIndex => "InvalidImageArrayIndex",
            ExpressionError::InvalidImageArrayIndexType(_) => "InvalidImageArrayIndexType",
            ExpressionError::InvalidImageStorageAccess(_) => "InvalidImageStorageAccess",
            ExpressionError::InvalidImageFormat(_) => "InvalidImageFormat",
            ExpressionError::Lower(_) => "Lower",
        }
    }
}

/// Writes the variant's name.
impl fmt::Display for ExpressionError {
    fn fmt<W: fmt::Write>(&self, f: &mut fmt::Formatter<W>) -> fmt::Result {
        f.write_str(self.name())
    }
}

impl std::error::Error for ExpressionError {}
