//! What `detail` says of the expressions that are lists of operands: operators, functions, forms, and which operands there are.
//! Part of `naga_layers`; no promise to users.
#![tactic(auto)]

mod casts;
mod images;
mod math;
mod operators;
mod vectors;

pub use crate::casts::Cast;
pub use crate::images::{ImageQuery, LevelKind, Loading, SampleForm};
pub use crate::math::{MathClass, MathFunction};
pub use crate::operators::{
    BinaryOperator, Derivative, DerivativeAxis, DerivativeControl, RelationalFunction,
    UnaryOperator,
};
pub use crate::vectors::{Swizzle, SwizzleComponent, size_from};
