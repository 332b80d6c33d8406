//! The errors of expressions, functions and globals, with their names: those of naga 30.0.1's `valid`.
//! Users import these from `naga_rules`, and `ExpressionError` from `naga_below` too.
#![tactic(auto)]

pub mod analyzer;
pub mod expression;
pub mod function;
pub mod interface;
pub mod mesh;

pub use crate::analyzer::{UniformityDisruptor, UniformityRequirements};
pub use crate::expression::ExpressionError;
pub use crate::function::{
    AtomicError, CallError, FunctionError, LocalVariableError, SubgroupError,
};
pub use crate::interface::{GlobalVariableError, VaryingError};
pub use crate::mesh::MeshFault;
