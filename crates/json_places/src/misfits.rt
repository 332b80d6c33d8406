//! Where in a document that stands which doesn't fit.

use crate::found::Found;
use crate::place::{
    JsonPointer, add_field, add_index, add_item, add_members, add_name, add_position,
};
use crate::spot::Spot;
use crate::statements::{ListedPosition, statements_of};
use ir_misfits::{EntryField, Misfit, Owner, Place, StatementField, TypeField, TypeOwner};
use json_nodes::Step;
use naga_below::{Block, Module};
use std::alloc::{AllocError, Global};

/// Finds where what doesn't fit stands: the statement, break condition, expression, variable, argument, result, member, type
/// or list, or the field of an entry point. None out of memory.
///
/// Without facts the types of global expressions are computed, so the pointer leads to the expressions.
pub fn locate_misfit(
    alloc: Global,
    has_facts: bool,
    module: &Module,
    misfit: &Misfit,
) -> Option<Found> {
    let mut steps = Vec::new(alloc);
    match add_misfit(alloc, &mut steps, has_facts, module, &misfit.place) {
        Ok(()) => Some(Found {
            spot: Spot::Misfit,
            place: JsonPointer { steps },
            reason: None,
        }),
        Err(_) => None,
    }
}

/// Adds the way from the document.
fn add_misfit(
    alloc: Global,
    steps: &mut Vec<Step>,
    has_facts: bool,
    module: &Module,
    place: &Place,
) -> Result<(), AllocError> {
    match place {
        Place::TypeInfos => add_field(steps, "facts", "type_infos"),
        Place::StorageLayout(info) => add_layout(steps, *info, "storage_layout"),
        Place::UniformLayout(info) => add_layout(steps, *info, "uniform_layout"),
        Place::GlobalTypes => add_global_types(steps, has_facts),
        Place::InType(owner, field) => add_type(steps, has_facts, *owner, *field),
        _ => {
            add_name(steps, "module")?;
            add_in_module(alloc, steps, module, place)
        }
    }
}

/// Adds the way from the document to a layout of an info.
fn add_layout(steps: &mut Vec<Step>, info: usize, layout: &'static str) -> Result<(), AllocError> {
    add_name(steps, "facts")?;
    add_item(steps, "type_infos", info)?;
    add_name(steps, layout)
}

/// Adds the way from the document to the types of global expressions, or, where these are computed, to the expressions.
fn add_global_types(steps: &mut Vec<Step>, has_facts: bool) -> Result<(), AllocError> {
    if has_facts {
        add_field(steps, "facts", "global_types")
    } else {
        add_field(steps, "module", "global_expressions")
    }
}

/// Adds the way from the document to a type, or to the members of a struct. The type of a global expression that is computed
/// has no members in the document.
fn add_type(
    steps: &mut Vec<Step>,
    has_facts: bool,
    owner: TypeOwner,
    field: TypeField,
) -> Result<(), AllocError> {
    let inner = match owner {
        TypeOwner::OfModule(ty) => {
            add_name(steps, "module")?;
            add_item(steps, "types", ty)?;
            "inner"
        }
        TypeOwner::OfGlobalExpression(expression) => {
            add_global_types(steps, has_facts)?;
            add_index(steps, expression)?;
            if !has_facts {
                return Ok(());
            }
            "Value"
        }
    };
    match field {
        TypeField::Whole | TypeField::Base => Ok(()),
        TypeField::Members => add_members(steps, inner),
        TypeField::Member(index) => {
            add_members(steps, inner)?;
            add_index(steps, index)
        }
    }
}

/// Adds the way from the module to what is no type.
fn add_in_module(
    alloc: Global,
    steps: &mut Vec<Step>,
    module: &Module,
    place: &Place,
) -> Result<(), AllocError> {
    match place {
        Place::RayDesc => add_field(steps, "special_types", "ray_desc"),
        Place::ConstantType(index) => add_item(steps, "constants", *index),
        Place::OverrideType(index) => add_item(steps, "overrides", *index),
        Place::InGlobal(index, _) => add_item(steps, "global_variables", *index),
        Place::Operand(Owner::Module, index, _) | Place::Reference(Owner::Module, index) => {
            add_item(steps, "global_expressions", *index)
        }
        Place::InEntryPoint(index, field) => {
            add_item(steps, "entry_points", *index)?;
            add_entry_field(steps, *field)
        }
        _ => add_in_function(alloc, steps, module, place),
    }
}

/// Adds the way from an entry point to a field of it, or of its mesh.
fn add_entry_field(steps: &mut Vec<Step>, field: EntryField) -> Result<(), AllocError> {
    let name = match field {
        EntryField::TaskPayload => return add_name(steps, "task_payload"),
        EntryField::MaxVerticesOverride => "max_vertices_override",
        EntryField::MaxPrimitivesOverride => "max_primitives_override",
        EntryField::VertexOutputType => "vertex_output_type",
        EntryField::PrimitiveOutputType => "primitive_output_type",
        EntryField::OutputVariable => "output_variable",
    };
    add_field(steps, "mesh_info", name)
}

/// Adds the way from the module to what a function has.
fn add_in_function(
    alloc: Global,
    steps: &mut Vec<Step>,
    module: &Module,
    place: &Place,
) -> Result<(), AllocError> {
    match place {
        Place::Arguments(owner) => {
            add_owner(steps, *owner)?;
            add_name(steps, "arguments")
        }
        Place::ArgumentType(owner, index) => {
            add_owner(steps, *owner)?;
            add_item(steps, "arguments", *index)
        }
        Place::ResultType(owner) => {
            add_owner(steps, *owner)?;
            add_name(steps, "result")
        }
        Place::InLocal(owner, index, _) => {
            add_owner(steps, *owner)?;
            add_item(steps, "local_variables", *index)
        }
        Place::Operand(owner, index, _) | Place::Reference(owner, index) => {
            add_owner(steps, *owner)?;
            add_item(steps, "expressions", *index)
        }
        Place::InStatement(owner, number, field) => {
            add_owner(steps, *owner)?;
            match body_of(module, *owner) {
                Some(body) => add_statement(alloc, steps, body, *number, *field),
                None => Ok(()),
            }
        }
        _ => Ok(()),
    }
}

/// Adds the way from the module to a function.
fn add_owner(steps: &mut Vec<Step>, owner: Owner) -> Result<(), AllocError> {
    match owner {
        Owner::Module => Ok(()),
        Owner::Function(index) => add_item(steps, "functions", index),
        Owner::EntryPoint(index) => {
            add_item(steps, "entry_points", index)?;
            add_name(steps, "function")
        }
    }
}

/// The body of a function.
fn body_of(module: &Module, owner: Owner) -> Option<&Block> {
    match owner {
        Owner::Module => None,
        Owner::Function(index) => Some(&module.functions.as_slice().get(index)?.body),
        Owner::EntryPoint(index) => {
            Some(&module.entry_points.as_slice().get(index)?.function.body)
        }
    }
}

/// Adds the way from a function to a statement, or to a break condition.
fn add_statement(
    alloc: Global,
    steps: &mut Vec<Step>,
    body: &Block,
    number: usize,
    field: StatementField,
) -> Result<(), AllocError> {
    let listed = statements_of(alloc, body)?;
    let position = match field {
        StatementField::BreakIf => ListedPosition::BreakIf(number),
        _ => ListedPosition::Statement(number),
    };
    add_position(alloc, steps, position, listed.as_slice())
}
