//! The checks of stage inputs and outputs, by built-in and by location: naga 30.0.1's `VaryingContext`.
//! Users import these from `naga_rules`.
#![tactic(auto)]

mod built_in;
mod built_in_number;
mod context;
mod holds;
pub mod item;
mod laws;
mod location;
mod rule;
mod small_set;
pub mod varying;

pub use crate::item::check_varying_item;
pub use crate::laws::varyings_law;
pub use crate::rule::{BuiltInRule, BuiltInType, builtin_rule};
pub use crate::varying::{MeshOutputType, VaryingPlace, VaryingState};
