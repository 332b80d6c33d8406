//! The reply of the program `naga_check` to one case: the judgement of its bench's module, and its line.
//! Part of `naga_check`; no promise to users.
#![tactic(auto)]

mod bench_module;
mod faults;
pub mod judge;
pub mod line;
mod worked;

pub use crate::worked::worked_loop;
