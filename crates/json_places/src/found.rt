//! What has a fault, and where that stands.

use crate::place::JsonPointer;
use crate::scope::Reason;
use crate::spot::Spot;
use crate::statements::ListedStatement;
use naga_below::{ExpressionError, Handle, Statement, tag};
use naga_rules::{CallError, FunctionError};

/// Where the fault of a refused module stands.
#[derive(Drop)]
pub struct Found {
    /// What has the fault.
    pub spot: Spot,
    /// Where in the document that stands.
    pub place: JsonPointer,
    /// Why an expression isn't in scope there, if that is the fault.
    pub reason: Option<Reason>,
}

/// The expression that isn't in scope where it is used, if that is the fault.
pub fn unseen(
    fault: &FunctionError,
    listed: &[ListedStatement<'_>],
    spot: &Spot,
) -> Option<Handle<tag::Expression>> {
    match fault {
        FunctionError::Expression {
            handle,
            source: ExpressionError::NotInScope,
        } => Some(*handle),
        FunctionError::InvalidCall {
            error: CallError::Argument {
                index,
                source: ExpressionError::NotInScope,
            },
            ..
        } => argument_of(listed, spot, *index),
        _ => None,
    }
}

/// An argument of the Call at a spot.
fn argument_of(
    listed: &[ListedStatement<'_>],
    spot: &Spot,
    index: usize,
) -> Option<Handle<tag::Expression>> {
    let Spot::At(position) = *spot else {
        return None;
    };
    let node = listed.get(position.number())?;
    match &node.located.statement {
        Statement::Call { arguments, .. } => arguments.as_slice().get(index).copied(),
        _ => None,
    }
}
