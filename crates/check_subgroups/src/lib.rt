//! The check lists of the subgroup statements and of barriers.
//! Part of the validator; no promise to users.
#![tactic(auto)]

pub mod barrier;
pub mod subgroup;
pub mod subgroup_collective;
pub mod subgroup_gather;
