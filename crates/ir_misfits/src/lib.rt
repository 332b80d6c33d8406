//! What doesn't fit in a module: misfits with their places and texts, and recorded facts that are short.
//! Of signatures, expressions and statements the misfits are found here. Users import these from `naga_module`.
#![tactic(auto)]

mod body;
pub mod expressions;
mod leaf;
pub mod misfit;
pub mod naming;
mod numbered;
mod short;
mod shortage;
pub mod signature;
pub mod statements;
mod texts;

pub use crate::misfit::{
    EntryField, HandleOf, Misfit, Owner, Place, Problem, StatementField, TypeField, TypeOwner,
    VariableField,
};
pub use crate::short::find_short_fact;
pub use crate::shortage::Shortage;
