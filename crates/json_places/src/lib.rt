//! Finds where in a document the thing stands that has a fault, and why a statement can't use an expression.
//! Part of `naga_judge`; no promise to users.
#![tactic(auto)]

mod found;
pub mod located;
mod misfits;
pub mod numbered;
pub mod parts;
mod place;
pub mod scope;
pub mod spot;
pub mod statements;

pub use crate::found::{Found, unseen};
pub use crate::misfits::locate_misfit;
pub use crate::place::JsonPointer;
pub use crate::scope::Reason;
pub use crate::spot::{EntryPart, Spot};
pub use crate::statements::{
    Inside, ListedPosition, ListedStatement, StatementPart, statements_of,
};
