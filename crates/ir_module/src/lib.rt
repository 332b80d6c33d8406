//! Expressions, functions, entry points and modules of the IR: what naga 30.0.1's validator reads of them.
//! Users import these from `naga_below`.
#![tactic(auto)]

pub mod expressions;
pub mod functions;
pub mod module;
pub mod operands;
mod pre_emitted;

pub use crate::expressions::{Expression, Literal};
pub use crate::functions::{Function, FunctionArgument, FunctionResult, LocalVariable};
pub use crate::module::{
    Constant, EarlyDepthTest, EntryPoint, GlobalVariable, MeshOutputTopology, MeshStageInfo,
    Module, Override, ResourceBinding, SpecialTypes,
};
pub use crate::operands::{listed_operands, operand, operand_count};
