//! The verdict of a document, written as JSON or for a person.
//! Users import what they need of it from `json_verdict`; all else is part of `naga_judge`, with no promise to users.
#![tactic(auto)]

pub mod form;
pub mod line;
pub mod lines;
mod named;
mod pointer;
mod untyped;
pub mod verdict;

pub use crate::form::Form;
pub use crate::verdict::{Examined, RefusedModule, Verdict, alone};
