//! For users: `Validator`, which checks whole functions, global variables and entry points.
#![tactic(auto)]

mod validator;

pub use crate::validator::Validator;
pub use check_faults::EntryPointError;
pub use check_laws::{chains_law, entry_law, function_law};
pub use check_scope::trace::{TraceRayVertexReturnState, TraceState};
