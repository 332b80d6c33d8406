//! The checks of an entry point but for its body: stage, inputs, outputs, used globals, mesh (naga's `validate_entry_point`).
//! Part of the validator; no promise to users.
#![tactic(auto)]

pub mod answers;
mod bindings;
mod globals;
pub mod interface;
mod mesh;
pub mod start;
pub mod uses;
pub mod varyings;
