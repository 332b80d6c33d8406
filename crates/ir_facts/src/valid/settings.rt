//! The settings of a validator.

use ir_flags::capabilities::Capabilities;
use ir_flags::valid::{ShaderStages, SubgroupOperationSet, ValidationFlags};

/// Which checks run, and what the target can do.
#[derive(Clone, Copy, PartialEq, Eq, Hash, Debug)]
pub struct Settings {
    pub flags: ValidationFlags,
    pub capabilities: Capabilities,
    /// The stages in which subgroup operations may be used.
    pub subgroup_stages: ShaderStages,
    /// The groups of subgroup operations that the target has.
    pub subgroup_operations: SubgroupOperationSet,
}
