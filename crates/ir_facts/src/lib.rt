//! What is known of a module before its functions are checked, and the trait `Below` of the lower layer that answers it.
//! It holds kinds of expressions, infos of functions, settings, and the facts that a document gives.
//! Users import these from `naga_below`, `naga_rules` and `naga_layers`.
#![tactic(auto)]

pub mod below;
pub mod facts;
pub mod proc;
pub mod valid;

pub use crate::below::Below;
pub use crate::facts::{
    ExpressionFact, Facts, FunctionFact, InfoFact, LowerFunctionError, MeshAnalysisFact,
};
pub use crate::proc::expression_kinds::{ExpressionKind, ExpressionKindTracker};
pub use crate::proc::mesh::MeshAnalysis;
pub use crate::valid::info::{FunctionInfo, ModuleInfo};
pub use crate::valid::settings::Settings;
