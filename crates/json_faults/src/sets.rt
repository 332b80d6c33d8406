//! Sets of named bits.

ghost use Rattle.json_faults.specs.JsonForm.{Writes};
ghost use Rattle.json_faults.specs.SetJson.{set_form};
ghost use Rattle.json_faults.specs.SetJson as sets;

use crate::to_json::ToJson;
use crate::writer::JsonWriter;
use bitflags::Flags;
use ir_flags::{
    Capabilities, GlobalUse, ShaderStages, StorageAccess, SubgroupOperationSet, TypeFlags,
};
use std::alloc::AllocError;
use std::fmt;

/// A list of the names of a set's bits, by ascending bit. The joined name, of several bits, is not written.
#[tactic(auto, unfolding(crate::specs::SetJson::set_form))]
fn write_set<B: Flags + Copy>(out: &mut JsonWriter, set: &B, joined: &str) -> Result<(), AllocError>
    ensures { B.exact → Writes result out.old out.new (set_form joined.now B.table (B.set_of set.now)) }
{
    out.begin_array()?;
    for flag in B::flags() {
        if flag.name() != joined && set.contains(*flag.value()) {
            out.string(flag.name())?;
        }
    }
    out.end_array()
}

impl ToJson for StorageAccess {
    ghost form = { sets.storage_access_form };

    fn write_json(&self, out: &mut JsonWriter) -> Result<(), AllocError> {
        write_set(out, self, "")
    }
}

impl ToJson for GlobalUse {
    ghost form = { sets.global_use_form };

    fn write_json(&self, out: &mut JsonWriter) -> Result<(), AllocError> {
        write_set(out, self, "")
    }
}

impl ToJson for Capabilities {
    ghost form = { sets.capabilities_form };

    fn write_json(&self, out: &mut JsonWriter) -> Result<(), AllocError> {
        write_set(out, self, "")
    }
}

impl ToJson for TypeFlags {
    ghost form = { sets.type_flags_form };

    fn write_json(&self, out: &mut JsonWriter) -> Result<(), AllocError> {
        write_set(out, self, "")
    }
}

impl ToJson for SubgroupOperationSet {
    ghost form = { sets.subgroup_operations_form };

    fn write_json(&self, out: &mut JsonWriter) -> Result<(), AllocError> {
        write_set(out, self, "")
    }
}

/// The nine single stages; the name of three of them together is not written.
impl ToJson for ShaderStages {
    ghost form = { sets.stages_form };

    fn write_json(&self, out: &mut JsonWriter) -> Result<(), AllocError> {
        write_set(out, self, "COMPUTE_LIKE")
    }
}

/// The names of a set's bits as text, by ascending bit, with a text before the first and one between them. A name of
/// several bits is none of them.
pub fn write_names<B: Flags + Copy, W: fmt::Write>(
    out: &mut W,
    set: &B,
    before: &str,
    between: &str,
) -> fmt::Result {
    let mut left = *set;
    let mut text = before;
    for flag in B::flags() {
        if left.contains(*flag.value()) {
            out.write_str(text)?;
            out.write_str(flag.name())?;
            left.remove(*flag.value());
            text = between;
        }
    }
    Ok(())
}
