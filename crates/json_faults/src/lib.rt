//! Writes faults, and what they hold, as JSON, by a definition for each type (the trait `ToJson`).
//! Part of `naga_judge`; no promise to users.
#![tactic(auto)]

mod built_ins;
mod expression;
mod function;
mod infos;
mod interface;
mod misfits;
mod names;
pub mod parts;
pub mod sets;
pub mod to_json;
mod types;
pub mod writer;
