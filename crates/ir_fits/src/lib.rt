//! The tests of conditions: whether all that a module names exists (handles in range), and the first thing that doesn't.
//! Nothing allocates. Users import the tests from `naga_below`.
#![tactic(auto)]

mod entry;
mod fits;
mod function;
mod globals;
mod laws;
mod types;

pub use crate::entry::check_entry_fits;
pub use crate::fits::{fits_entry, fits_function, fits_globals, fits_types};
pub use crate::function::{check_function_fits, fits_function_with};
pub use crate::globals::check_globals_fit;
pub use crate::laws::misfits_law;
pub use crate::types::check_types_fit;
