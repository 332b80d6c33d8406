//! For users: `check_module`, which judges a module, `find_misfit`, which says why it is `NotFit`, and the messages of faults.
//! It passes on the lower layers of `naga_layers`.
#![tactic(auto)]

mod check;
mod laws;
mod misfit;
mod worked;

pub use crate::check::{Given, check_module};
pub use crate::laws::module_law;
pub use crate::misfit::find_misfit;
pub use crate::worked::worked_chain;
pub use check_faults::{
    ModuleFault, Subject, Whereabouts, write_fault, write_module_fault, write_module_fault_lines,
    write_refusal,
};
pub use ir_fits::misfits_law;
pub use ir_misfits::{
    EntryField, HandleOf, Misfit, Owner, Place, Problem, Shortage, StatementField, TypeField,
    TypeOwner, VariableField, find_short_fact,
};
pub use naga_layers::{
    ExpressionFact, Facts, FunctionFact, InfoFact, LowerFunctionError, MeshAnalysisFact, Plain,
    Recorded,
};
