//! What is wrong with a module.

use crate::entry::EntryPointError;
use ir_arena::handle::Handle;
use ir_arena::span::WithSpan;
use ir_arena::tag;
use ir_errors::function::FunctionError;
use ir_errors::interface::GlobalVariableError;
use std::alloc::AllocError;

/// What is wrong with a module: the first fault in the order of its judgement.
#[derive(PartialEq, Debug, Drop)]
pub enum ModuleFault {
    /// What is named doesn't exist or comes too late; a range is out of order, or ends after the last expression; lists
    /// that belong together differ in length, or are longer than 32 bits count; a global in Handle is a binding array of
    /// external images or ray queries; a global lies in Function where there is an entry point; or the size of a task payload
    /// isn't known. `find_misfit` says which.
    NotFit,
    /// A global variable has this fault.
    Global(Handle<tag::GlobalVariable>, GlobalVariableError),
    /// A function has this fault.
    Function(Handle<tag::Function>, WithSpan<FunctionError>),
    /// An entry point, counted from 0, has this fault.
    EntryPoint(usize, WithSpan<EntryPointError>),
    /// Out of memory.
    Memory,
}

impl From<AllocError> for ModuleFault {
    ghost use Rattle.check_faults.specs.declared.module.ModuleFault.TheVariants as fault;
    ghost use Rattle.std.specs.Prelude.{◌≡◌};

    ghost from_gives = { λ refused made. made ≡ fault.Memory };

    fn from(_refused: AllocError) -> Self {
        ModuleFault::Memory
    }
}

/// Drops a fault. A crate that drops one itself has the drops of all its parts to prove, and one that calls this has not.
pub fn drop_fault(fault: ModuleFault) {
    drop(fault);
}
