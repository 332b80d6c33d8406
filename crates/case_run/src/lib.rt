//! Reads one case of the program `naga_check`, judges it, and writes its line (`run_case`).
//! Part of `naga_check`; no promise to users.
#![tactic(auto)]

mod run;

pub use crate::run::run_case;
