//! Which globals a function uses, and how: what its expressions and statements do with them, and the functions that it calls.
//! Part of `naga_layers`; no promise to users.
#![tactic(auto)]

mod joins;
mod roots;
pub mod uses;
mod walk;
