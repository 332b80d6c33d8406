//! Reads statements and blocks of a JSON document ([`read_body`]), and the operations that statements name.
//! Part of `naga_judge`; no promise to users.
#![tactic(auto)]

mod leaves;
mod operations;
mod statements;

pub use crate::statements::read_body;
