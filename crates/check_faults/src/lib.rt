//! What is wrong with an entry point or a module, and the sentences and messages of every fault.
//! Users import these from `naga_rules`, `naga_valid` and `naga_module`.
#![tactic(auto)]

pub mod entry;
pub mod module;
mod report;
mod sentences;

pub use crate::entry::EntryPointError;
pub use crate::module::ModuleFault;
pub use crate::report::{
    Subject, Whereabouts, write_fault, write_module_fault, write_module_fault_lines, write_refusal,
};
pub use crate::sentences::{Explain, explain_inside};
