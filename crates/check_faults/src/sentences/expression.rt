//! Errors of expressions.

use crate::sentences::Explain;
use ir_errors::expression::ExpressionError;

impl Explain for ExpressionError {
    fn sentence(&self) -> &'static str {
        match self {
            ExpressionError::NotInScope => "the expression is not in scope where it is used",
            ExpressionError::ExpectedGlobalVariable =>
                "the image is not a global variable, and not an element of one",
            ExpressionError::ExpectedBindingArrayType(_) =>
                "the image is an element of a global that is not a binding array",
            ExpressionError::ExpectedImageType(_) =>
                "the global is of this type, which is not an image",
            ExpressionError::InvalidImageClass(_) =>
                "the operation isn't supported on images of this class",
            ExpressionError::InvalidImageCoordinateType(_, _) =>
                "the coordinate doesn't fit an image of this dimension",
            ExpressionError::InvalidImageArrayIndex =>
                "there is an array index and the image isn't arrayed, or the other way round",
            ExpressionError::InvalidImageArrayIndexType(_) =>
                "the array index is not an integer scalar",
            ExpressionError::InvalidImageStorageAccess(_) =>
                "the image isn't declared with the access that the operation needs",
            ExpressionError::InvalidImageFormat(_) =>
                "the operation isn't supported on texels of this format",
            ExpressionError::Lower(_) =>
                "the layer below refuses the expression, for a reason of its own",
        }
    }
}
