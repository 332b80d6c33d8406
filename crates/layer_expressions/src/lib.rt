//! The types of expressions, computed from a module alone, or the rule that one breaks ([`types_of`], [`global_types`]).
//! Users import `global_types`, `Untyped` and `Rule` from `naga_layers`; all else is part of it, with no promise to users.
#![tactic(auto)]

mod access;
mod images;
mod loading;
mod math;
pub mod named;
mod operands;
mod operators;
mod others;
mod rules;
mod sampling;
pub mod types;

pub use crate::rules::Rule;
pub use crate::types::{Untyped, global_types, types_of};
