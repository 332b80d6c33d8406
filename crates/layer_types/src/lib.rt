//! Layouts of types by WGSL's rules: sizes, alignments, and the infos of a module's types ([`infos_of_types`]).
//! Part of `naga_layers`; no promise to users.
#![tactic(auto)]

mod arrays;
mod infos;
pub mod leaves;
mod parts;
pub mod sizes;
mod structs;

pub use crate::infos::infos_of_types;
pub use crate::sizes::size_at;
