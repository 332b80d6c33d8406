//! The checks of local and global variables, the uses that a global may have at a stage, and which bindings are taken.
//! Users import these from `naga_rules`, but for `bindings`: that is part of the validator, with no promise to users.
#![tactic(auto)]

pub mod allowed;
pub mod bindings;
pub mod global;
pub mod local;

pub use crate::allowed::allowed_use;
pub use crate::global::check_global;
pub use crate::local::check_local;
