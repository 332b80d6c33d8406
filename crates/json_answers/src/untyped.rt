//! Why an expression of a refused module has no type.

use crate::verdict::RefusedModule;
use check_faults::{EntryPointError, ModuleFault};
use layer_sentences::write_untyped;
use naga_below::{ExpressionError, Function};
use naga_rules::FunctionError;
use std::alloc::Global;
use std::fmt;

/// Says on a line of its own why an expression has no type, if that is the fault and the types were computed.
///
/// An Err is that of the writer, or out of memory.
pub(crate) fn tell_untyped<W: fmt::Write>(
    alloc: Global,
    out: &mut W,
    fault: &ModuleFault,
    refused: &RefusedModule,
) -> fmt::Result {
    if !refused.is_computed {
        return Ok(());
    }
    let module = &refused.module;
    match refused_in(refused, fault) {
        Some(
            (
                function,
                FunctionError::Expression {
                    handle,
                    source: ExpressionError::Lower(rule),
                },
            ),
        ) => {
            out.write_str("\n  ")?;
            write_untyped(alloc, out, module, function, *handle, *rule)
        }
        _ => Ok(()),
    }
}

/// The function that has a fault, and the fault.
fn refused_in<'a>(
    refused: &'a RefusedModule,
    fault: &'a ModuleFault,
) -> Option<(&'a Function, &'a FunctionError)> {
    let module = &refused.module;
    match fault {
        ModuleFault::Function(handle, error) => {
            let function = module.functions.as_slice().get(handle.index())?;
            Some((function, error.as_inner()))
        }
        ModuleFault::EntryPoint(index, error) => match error.as_inner() {
            EntryPointError::Function(inner) => {
                let ep = module.entry_points.as_slice().get(*index)?;
                Some((&ep.function, inner))
            }
            _ => None,
        },
        _ => None,
    }
}
