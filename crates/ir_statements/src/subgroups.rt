//! Which subgroup operations a statement needs.

ghost use Rattle.std.specs.Prelude.{◌≡◌};
ghost use Rattle.ir_statements.specs.Subgroups.{operation_group, gather_group};

use crate::operations::{GatherMode, SubgroupOperation};
use ir_flags::valid::SubgroupOperationSet;

impl SubgroupOperation {
    /// The group of subgroup operations that this one belongs to.
    pub fn required_operations(self) -> SubgroupOperationSet
        ensures { result ≡ operation_group self }
    {
        match self {
            SubgroupOperation::All | SubgroupOperation::Any => SubgroupOperationSet::VOTE,
            SubgroupOperation::Add
            | SubgroupOperation::Mul
            | SubgroupOperation::Min
            | SubgroupOperation::Max
            | SubgroupOperation::And
            | SubgroupOperation::Or
            | SubgroupOperation::Xor => SubgroupOperationSet::ARITHMETIC,
        }
    }
}

impl GatherMode {
    /// The group of subgroup operations that a gather of this mode belongs to.
    pub fn required_operations(self) -> SubgroupOperationSet
        ensures { result ≡ gather_group self }
    {
        match self {
            GatherMode::BroadcastFirst | GatherMode::Broadcast(_) => SubgroupOperationSet::BALLOT,
            GatherMode::Shuffle(_) | GatherMode::ShuffleXor(_) => SubgroupOperationSet::SHUFFLE,
            GatherMode::ShuffleUp(_) | GatherMode::ShuffleDown(_) => {
                SubgroupOperationSet::SHUFFLE_RELATIVE
            }
            GatherMode::QuadBroadcast(_) | GatherMode::QuadSwap(_) => SubgroupOperationSet::QUAD,
        }
    }
}
