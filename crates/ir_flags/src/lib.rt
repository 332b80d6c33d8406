//! The sets of named bits of the IR and of the validator, with naga 30.0.1's names and bits.
//! Users import these from `naga_below`.
#![tactic(auto)]

/// The table of a set's bits with their names.
///
/// `bitflag_items!` of `bitflags` also writes operators and formats, which have no contract. A set here has the methods of
/// [`Flags`](bitflags::Flags), each of which says what bits it gives.
macro_rules! named_bits {
    ($set:ident: $($bit:ident),*) => {
        &[$(Flag { name: stringify!($bit), value: $set::$bit },)*]
    };
}

pub mod capabilities;
pub mod ir;
mod set_text;
pub mod valid;

pub use crate::capabilities::Capabilities;
pub use crate::ir::{Barrier, MemoryDecorations, StorageAccess};
pub use crate::valid::{GlobalUse, ShaderStages, SubgroupOperationSet, TypeFlags, ValidationFlags};
