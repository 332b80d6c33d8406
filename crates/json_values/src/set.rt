//! Sets of named bits: lists of names, each at most once.

ghost use Rattle.std.specs.Prelude.{◌≡◌};
ghost use Rattle.json_nodes.specs.Nodes.{data_of};
ghost use Rattle.json_values.specs.Sets.{bits_of, bit_of};
ghost use Rattle.json_values.specs.Sets as sets;
ghost use Rattle.json_values.specs.Reads.{ReadsAs};

use crate::error::ReadError;
use crate::expected::expected_bit;
use crate::from_json::{FromJson, Held};
use crate::list::elements;
use bitflags::Flags;
use ir_flags::{
    Barrier, Capabilities, GlobalUse, MemoryDecorations, ShaderStages, StorageAccess,
    SubgroupOperationSet, TypeFlags, ValidationFlags,
};
use json_nodes::{Node, Step};
use std::alloc::Global;

/// What is expected where a set of stages is.
const STAGES: &str = "a list of stages, or \"ALL\"";

/// The bit that a text names. A name of several bits, which may be given, is none.
fn read_bit<B: Flags + Copy>(alloc: Global, value: &Node, joined: &str) -> Result<B, ReadError>
    ensures { B.exact → ReadsAs B.set_of (bit_of B.table joined.now (data_of value.now)) result }
{
    if let Some(name) = value.as_str() {
        if name != joined {
            if let Some(bit) = B::from_name(name) {
                return Ok(bit);
            }
        }
    }
    Err(expected_bit::<B>(alloc, joined))
}

/// The set of the bits that a list names.
fn read_set<B: Flags + Copy>(alloc: Global, value: &Node, joined: &str) -> Result<B, ReadError>
    ensures { B.exact → ReadsAs B.set_of (bits_of B.table joined.now (data_of value.now)) result }
{
    let mut items = match elements(alloc, value) {
        Ok(items) => items,
        Err(error) => return Err(error),
    };
    let mut set = B::empty();
    let mut index: usize = 0;
    while let Some(item) = items.next() {
        match read_bit(alloc, &item, joined) {
            Ok(bit) => {
                if set.contains(bit) {
                    let error = ReadError::expected(alloc, "a name that the set doesn't have yet");
                    return Err(error.within(Step::Index(index)));
                }
                set.insert(bit);
            }
            Err(error) => return Err(error.within(Step::Index(index))),
        }
        index = index.saturating_add(1);
    }
    Ok(set)
}

impl<R: Copy> FromJson<R> for ValidationFlags {
    ghost stands_for = { sets.validation_flags_of };

    fn from_json(_: R, held: Held) -> Result<Self, ReadError> {
        read_set(held.alloc, held.value, "")
    }
}

impl<R: Copy> FromJson<R> for Capabilities {
    ghost stands_for = { sets.capabilities_of };

    fn from_json(_: R, held: Held) -> Result<Self, ReadError> {
        read_set(held.alloc, held.value, "")
    }
}

impl<R: Copy> FromJson<R> for SubgroupOperationSet {
    ghost stands_for = { sets.subgroup_operations_of };

    fn from_json(_: R, held: Held) -> Result<Self, ReadError> {
        read_set(held.alloc, held.value, "")
    }
}

impl<R: Copy> FromJson<R> for TypeFlags {
    ghost stands_for = { sets.type_flags_of };

    fn from_json(_: R, held: Held) -> Result<Self, ReadError> {
        read_set(held.alloc, held.value, "")
    }
}

impl<R: Copy> FromJson<R> for GlobalUse {
    ghost stands_for = { sets.global_use_of };

    fn from_json(_: R, held: Held) -> Result<Self, ReadError> {
        read_set(held.alloc, held.value, "")
    }
}

impl<R: Copy> FromJson<R> for StorageAccess {
    ghost stands_for = { sets.storage_access_of };

    fn from_json(_: R, held: Held) -> Result<Self, ReadError> {
        read_set(held.alloc, held.value, "")
    }
}

impl<R: Copy> FromJson<R> for Barrier {
    ghost stands_for = { sets.barrier_of };

    fn from_json(_: R, held: Held) -> Result<Self, ReadError> {
        read_set(held.alloc, held.value, "")
    }
}

impl<R: Copy> FromJson<R> for MemoryDecorations {
    ghost stands_for = { sets.memory_decorations_of };

    fn from_json(_: R, held: Held) -> Result<Self, ReadError> {
        read_set(held.alloc, held.value, "")
    }
}

/// All stages, by the text that stands for them.
fn all_stages(text: &str) -> Option<ShaderStages>
    ensures { result ≡ sets.all_stages text.now }
{
    if text == "ALL" {
        Some(ShaderStages::ALL)
    } else {
        None
    }
}

/// The text `"ALL"`, or a list of some of the nine single stages; the name of three of them together is none.
impl<R: Copy> FromJson<R> for ShaderStages {
    ghost stands_for = { sets.stages_of };

    fn from_json(_: R, held: Held) -> Result<Self, ReadError> {
        if let Some(text) = held.value.as_str() {
            return match all_stages(text) {
                Some(all) => Ok(all),
                None => Err(ReadError::expected(held.alloc, STAGES)),
            };
        }
        match held.value.items() {
            Some(_) => read_set(held.alloc, held.value, "COMPUTE_LIKE"),
            None => Err(ReadError::expected(held.alloc, STAGES)),
        }
    }
}
