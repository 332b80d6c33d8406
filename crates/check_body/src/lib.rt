//! The declarations of a function and the walk over its body.
//! Part of the validator; no promise to users.
#![tactic(auto)]

pub mod declarations;
pub mod function;
