//! The table of expressions in scope and of filled results, and what else every check list of a body reads.
//! Users import `TraceState` and `TraceRayVertexReturnState` from `naga_valid`; all else is part of the validator, with no
//! promise to users.
#![tactic(auto)]

pub mod context;
pub mod pointers;
pub mod refuse;
pub mod results;
pub mod roots;
pub mod table;
pub mod trace;
pub mod types;
