//! Statements and blocks of the IR, and the tree of a body: what naga 30.0.1's validator reads of them.
//! Users import these from `naga_below`.
#![tactic(auto)]

pub mod operations;
pub mod statements;
mod subgroups;

pub use crate::operations::{
    AtomicFunction, CollectiveOperation, CooperativeData, GatherMode, RayPipelineFunction,
    RayQueryFunction, SubgroupOperation, SwitchValue,
};
pub use crate::statements::{Block, Located, Operands, Statement, SwitchCase};
