//! Reads types of a JSON document, and what they hold: members, images, address spaces, and bindings of stages ([`Types`]).
//! Part of `naga_judge`; no promise to users.
#![tactic(auto)]

mod bindings;
mod images;
mod spaces;
mod types;

pub use crate::types::Types;
