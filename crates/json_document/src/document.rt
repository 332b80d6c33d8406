//! Documents: the settings of a validator, a module, and what is known of it, where it says so.

ghost use Rattle.json_nodes.specs.Nodes.{data_of};
ghost use Rattle.json_document.specs.Whole.{all_parts, document_of, known_of, named_parts, parts_of, settings_of};
ghost use Rattle.json_values.specs.Reads.{ReadsMeaning};

use crate::id::Id;
use ir_arena::Sequence;
use ir_facts::{Facts, Settings};
use ir_flags::{Capabilities, ShaderStages, SubgroupOperationSet, ValidationFlags};
use ir_module::Module;
use ir_types::{TypeInfo, TypeResolution};
use json_values::{FromJson, Held, ReadError, has_field};

/// Who reads documents, and what they hold.
#[derive(Clone, Copy)]
pub struct Documents;

/// What a document says is known of its module: infos of its types, types of its global expressions, and the facts that a
/// lower layer answers.
#[derive(Drop)]
pub struct Known {
    pub type_infos: Sequence<TypeInfo>,
    pub global_types: Sequence<TypeResolution>,
    pub facts: Facts,
}

/// A document: settings, a module, and its facts. Without facts, what is known of the module is computed.
#[derive(Drop)]
pub struct Document {
    pub settings: Settings,
    pub module: Module,
    pub known: Option<Known>,
}

impl FromJson<Documents> for Known {
    ghost stands_for = { known_of };

    fn from_json(_: Documents, held: Held) -> Result<Self, ReadError> {
        match held.six(
            Documents,
            &(
                "type_infos",
                "global_types",
                "sizes",
                "mesh_analyses",
                "functions",
                "entry_points",
            ),
        ) {
            Ok((type_infos, global_types, sizes, mesh_analyses, functions, entry_points)) => {
                let facts = Facts {
                    sizes,
                    mesh_analyses,
                    functions,
                    entry_points,
                };
                Ok(Known {
                    type_infos,
                    global_types,
                    facts,
                })
            }
            Err(error) => Err(error),
        }
    }
}

/// What the fields of a document stand for, without its id.
type DocumentParts = (
    ValidationFlags,
    Capabilities,
    ShaderStages,
    SubgroupOperationSet,
    Module,
    Option<Known>,
);

/// The settings, whatever stands beside them.
fn read_settings(
    held: Held,
) -> Result<
    (
        ValidationFlags,
        Capabilities,
        ShaderStages,
        SubgroupOperationSet,
    ),
    ReadError,
>
    ensures { ReadsMeaning (settings_of (data_of held.entry.value.now)) result }
{
    let flags = match held.get(Documents, "flags") {
        Ok(flags) => flags,
        Err(error) => return Err(error),
    };
    let capabilities = match held.get(Documents, "capabilities") {
        Ok(capabilities) => capabilities,
        Err(error) => return Err(error),
    };
    let stages = match held.get(Documents, "subgroup_stages") {
        Ok(stages) => stages,
        Err(error) => return Err(error),
    };
    match held.get(Documents, "subgroup_operations") {
        Ok(operations) => Ok((flags, capabilities, stages, operations)),
        Err(error) => Err(error),
    }
}

/// The settings, the module and the facts, whatever stands beside them.
fn read_all_parts(held: Held) -> Result<DocumentParts, ReadError>
    ensures { ReadsMeaning (all_parts (data_of held.entry.value.now)) result }
{
    let (flags, capabilities, stages, operations) = match read_settings(held) {
        Ok(settings) => settings,
        Err(error) => return Err(error),
    };
    match held.get(Documents, "module") {
        Ok(module) => match held.get(Documents, "facts") {
            Ok(known) => Ok((flags, capabilities, stages, operations, module, known)),
            Err(error) => Err(error),
        },
        Err(error) => Err(error),
    }
}

/// The same of an object with exactly these fields and an id.
fn read_named_parts(held: Held) -> Result<DocumentParts, ReadError>
    ensures { ReadsMeaning (named_parts (data_of held.entry.value.now)) result }
{
    if let Err(error) = held.fields(&[
        "id",
        "flags",
        "capabilities",
        "subgroup_stages",
        "subgroup_operations",
        "module",
        "facts",
    ]) {
        return Err(error);
    }
    match held.get::<_, Id>(Documents, "id") {
        Ok(_) => read_all_parts(held),
        Err(error) => Err(error),
    }
}

/// The same of an object with an id or without one.
fn read_parts(held: Held) -> Result<DocumentParts, ReadError>
    ensures { ReadsMeaning (parts_of (data_of held.entry.value.now)) result }
{
    if has_field(held.value, "id") {
        return read_named_parts(held);
    }
    held.six(
        Documents,
        &(
            "flags",
            "capabilities",
            "subgroup_stages",
            "subgroup_operations",
            "module",
            "facts",
        ),
    )
}

impl FromJson<Documents> for Document {
    ghost stands_for = { document_of };

    fn from_json(_: Documents, held: Held) -> Result<Self, ReadError> {
        match read_parts(held) {
            Ok((flags, capabilities, subgroup_stages, subgroup_operations, module, known)) => {
                let settings = Settings {
                    flags,
                    capabilities,
                    subgroup_stages,
                    subgroup_operations,
                };
                Ok(Document {
                    settings,
                    module,
                    known,
                })
            }
            Err(error) => Err(error),
        }
    }
}
