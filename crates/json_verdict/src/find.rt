//! Finds what has a fault, and where it stands.

use crate::basis::Basis;
use check_faults::module::drop_fault;
use ir_module::module::drop_module;
use json_places::Found;
use json_places::located::found_in;
use json_places::numbered::numbered_module;
use json_places::spot::number_in;
use naga_below::{Module, Settings, Span};
use naga_module::{Facts, ModuleFault};
use std::alloc::Global;

/// A module that was judged and is refused: over what it was judged, with which settings, and its fault.
#[derive(Clone, Copy)]
pub(crate) struct JudgedModule<'a> {
    pub basis: &'a Basis,
    pub settings: Settings,
    pub module: &'a Module,
    pub fault: &'a ModuleFault,
}

impl JudgedModule<'_> {
    /// Finds where the fault stands. None of `NotFit` and `Memory`, which name nothing, and out of memory.
    /// [`locate_misfit`](json_places::locate_misfit) is for what doesn't fit.
    ///
    /// The module is judged once more, over the same basis, with spans that number its statements: so its own spans need not
    /// distinguish them.
    pub(crate) fn locate(self, alloc: Global) -> Option<Found> {
        let number = self.number(alloc);
        if number.is_none() && !spans_of(self.fault).is_empty() {
            return None;
        }
        match found_in(alloc, facts_of(self.basis), self.module, self.fault, number) {
            Ok(found) => found,
            Err(_) => None,
        }
    }

    /// The number of the statement that has the fault. None where no statement has it, and out of memory.
    fn number(self, alloc: Global) -> Option<usize> {
        if spans_of(self.fault).is_empty() {
            return None;
        }
        match numbered_module(alloc, self.module) {
            Ok(numbered) => {
                let number = self.number_again(alloc, &numbered);
                drop_module(numbered);
                number
            }
            Err(_) => None,
        }
    }

    /// The number of the statement that has the fault, by the same module whose spans are numbers.
    fn number_again(self, alloc: Global, numbered: &Module) -> Option<usize> {
        match self.basis.judge(alloc, self.settings, numbered) {
            Ok(infos) => {
                drop(infos);
                None
            }
            Err(again) => {
                let number = number_in(spans_of(&again));
                drop_fault(again);
                number
            }
        }
    }
}

/// The facts that are recorded, if the module is judged over such.
fn facts_of(basis: &Basis) -> Option<&Facts> {
    match &basis.layer {
        Some(layer) => Some(&layer.facts),
        None => None,
    }
}

/// The spans of a fault.
fn spans_of(fault: &ModuleFault) -> &[Span] {
    match fault {
        ModuleFault::Function(_, error) => error.spans(),
        ModuleFault::EntryPoint(_, error) => error.spans(),
        ModuleFault::NotFit | ModuleFault::Global(_, _) | ModuleFault::Memory => &[],
    }
}
