//! Faults of expressions.

ghost use Rattle.json_faults.specs.Faults.{expression_error_form};

use crate::parts::{holding, holding_pair};
use crate::to_json::ToJson;
use crate::writer::JsonWriter;
use ir_errors::ExpressionError;
use std::alloc::AllocError;

impl ToJson for ExpressionError {
    ghost form = { expression_error_form };

    #[tactic(auto, unfolding(crate::specs::Faults::expression_error_form, crate::specs::Faults::expression_error_held, crate::specs::JsonForm::variant))]
    fn write_json(&self, out: &mut JsonWriter) -> Result<(), AllocError> {
        let variant = self.name();
        match self {
            ExpressionError::NotInScope
            | ExpressionError::ExpectedGlobalVariable
            | ExpressionError::InvalidImageArrayIndex => out.string(variant),
            ExpressionError::ExpectedBindingArrayType(ty)
            | ExpressionError::ExpectedImageType(ty) => holding(out, variant, ty),
            ExpressionError::InvalidImageClass(class) => holding(out, variant, class),
            ExpressionError::InvalidImageCoordinateType(dimension, coordinate) => holding_pair(
                out, variant, dimension, coordinate,
            ),
            ExpressionError::InvalidImageArrayIndexType(index) => holding(out, variant, index),
            ExpressionError::InvalidImageStorageAccess(access) => holding(out, variant, access),
            ExpressionError::InvalidImageFormat(format) => holding(out, variant, format),
            ExpressionError::Lower(reason) => holding(out, variant, reason),
        }
    }
}
