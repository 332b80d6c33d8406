//! Reads expressions and literals of a JSON document, as kinds with their parts or in named forms ([`read_expression`]).
//! Part of `naga_judge`; no promise to users.
#![tactic(auto)]

mod expressions;
mod form_names;
mod forms;
mod literals;
mod named;

pub use crate::expressions::read_expression;
