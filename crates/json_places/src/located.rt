//! What has the fault of a module, and where it stands.

use crate::found::{Found, unseen};
use crate::place::place_of;
use crate::scope::{Reason, reason_of};
use crate::spot::{Spot, spot_in_entry, spot_in_function};
use crate::statements::{ListedStatement, statements_of};
use check_faults::{EntryPointError, ModuleFault, Subject};
use ir_facts::Facts;
use ir_misfits::{Owner, Shortage, find_short_fact};
use naga_below::{ExpressionError, Function, Handle, Module, tag};
use naga_rules::FunctionError;
use std::alloc::{AllocError, Global};

/// What has a fault, with the number of its statement, if it has one. `facts` are those that are recorded, if the module was
/// judged over such. None of `NotFit` and `Memory`, which name nothing.
pub fn found_in(
    alloc: Global,
    facts: Option<&Facts>,
    module: &Module,
    fault: &ModuleFault,
    number: Option<usize>,
) -> Result<Option<Found>, AllocError> {
    match fault {
        ModuleFault::Global(global, _) => Ok(Some(found_in_global(alloc, *global)?)),
        ModuleFault::Function(handle, error) => {
            let Some(function) = module.functions.as_slice().get(handle.index()) else {
                return Ok(None);
            };
            let judged = Judged {
                subject: Subject::Function(*handle),
                owner: Owner::Function(handle.index()),
                function,
                fault: error.as_inner(),
                number,
            };
            Ok(Some(found_in_body(alloc, facts, module, judged)?))
        }
        ModuleFault::EntryPoint(index, error) => {
            let Some(ep) = module.entry_points.as_slice().get(*index) else {
                return Ok(None);
            };
            let subject = Subject::EntryPoint(*index);
            let EntryPointError::Function(fault) = error.as_inner() else {
                let spot = spot_in_entry(alloc, module, ep, error.as_inner())?;
                return Ok(Some(found_at(alloc, subject, spot, &[], None)?));
            };
            let judged = Judged {
                subject,
                owner: Owner::EntryPoint(*index),
                function: &ep.function,
                fault,
                number,
            };
            Ok(Some(found_in_body(alloc, facts, module, judged)?))
        }
        ModuleFault::NotFit | ModuleFault::Memory => Ok(None),
    }
}

/// A function that was judged, or that of an entry point, and its fault.
#[derive(Clone, Copy)]
struct Judged<'a> {
    subject: Subject,
    owner: Owner,
    function: &'a Function,
    fault: &'a FunctionError,
    /// The number of the statement that has the fault, if one has.
    number: Option<usize>,
}

/// A global has the fault.
fn found_in_global(
    alloc: Global,
    global: Handle<tag::GlobalVariable>,
) -> Result<Found, AllocError> {
    let spot = Spot::Global(global);
    found_at(alloc, Subject::GlobalVariable(global), spot, &[], None)
}

/// What of a function has its fault.
fn found_in_body(
    alloc: Global,
    facts: Option<&Facts>,
    module: &Module,
    judged: Judged<'_>,
) -> Result<Found, AllocError> {
    let fault = judged.fault;
    let listed = statements_of(alloc, &judged.function.body)?;
    let listed = listed.as_slice();
    let spot = match shortage_in(facts, module, judged.owner, fault) {
        Some(shortage) => Spot::Facts(shortage),
        None => spot_in_function(judged.function, listed, fault, judged.number),
    };
    let used = unseen(fault, listed, &spot);
    found_at(alloc, judged.subject, spot, listed, used)
}

/// What is short in the facts about a function, or breaks a law, if there are facts and its fault is that.
fn shortage_in(
    facts: Option<&Facts>,
    module: &Module,
    owner: Owner,
    fault: &FunctionError,
) -> Option<Shortage> {
    let FunctionError::Expression {
        handle,
        source: ExpressionError::Lower(0),
    } = fault
    else {
        return None;
    };
    match find_short_fact(facts?, module, owner) {
        // A fact may say the same of an expression before those that have none.
        Some(Shortage::Expressions { found, .. }) if handle.index() < found => None,
        shortage => shortage,
    }
}

/// Where a spot stands, and why the expression that can't be used there can't, if that is the fault.
fn found_at(
    alloc: Global,
    subject: Subject,
    spot: Spot,
    listed: &[ListedStatement<'_>],
    used: Option<Handle<tag::Expression>>,
) -> Result<Found, AllocError> {
    let reason = match used {
        Some(handle) => reason_at(alloc, listed, spot, handle)?,
        None => None,
    };
    Ok(Found {
        spot,
        place: place_of(alloc, subject, spot, listed)?,
        reason,
    })
}

/// Why an expression can't be used at a spot, if that is in the body.
fn reason_at(
    alloc: Global,
    listed: &[ListedStatement<'_>],
    spot: Spot,
    handle: Handle<tag::Expression>,
) -> Result<Option<Reason>, AllocError> {
    match spot {
        Spot::At(position) => Ok(Some(reason_of(alloc, listed, position, handle)?)),
        _ => Ok(None),
    }
}
