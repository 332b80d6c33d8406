//! The judgement of an entry point, and the laws of what the judgements of functions and entry points accept and refuse.
//! Users import the laws from `naga_valid`.
#![tactic(auto)]

mod laws;

pub use crate::laws::{chains_law, entry_law, function_law};
