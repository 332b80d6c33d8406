//! For users: lower layers: `Recorded` and `Lent` answer recorded facts, `Typed` computes, `Plain` types the plainest expressions.
#![tactic(auto)]

mod infos;
mod kinds;
mod lent;
mod plain;
mod recorded;
mod stages;
mod typed;

pub use crate::infos::type_infos;
pub use crate::lent::Lent;
pub use crate::plain::Plain;
pub use crate::recorded::Recorded;
pub use crate::typed::Typed;
pub use ir_facts::{
    ExpressionFact, Facts, FunctionFact, InfoFact, LowerFunctionError, MeshAnalysisFact,
};
pub use layer_expressions::{Rule, Untyped, global_types};
