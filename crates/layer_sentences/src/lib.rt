//! Why an expression has no type, in words for people ([`write_untyped`]).
//! Part of `naga_judge`; no promise to users.
#![tactic(auto)]

mod binary;
pub mod kinds;
mod rules;
mod types;
mod untyped;

pub use crate::untyped::write_untyped;
