//! The notation of the program `naga_check`, and its reader.
//! Part of `naga_check`; no promise to users.
#![tactic(auto)]

pub mod bench;
mod build;
pub mod case;
mod head;
mod reader;
mod token;
mod value;
mod words;

pub use crate::bench::Bench;
pub use crate::case::{Case, CaseError, read_case};
