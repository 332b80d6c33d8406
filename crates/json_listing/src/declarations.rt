//! What a function, an entry point or a global declares, a line each.

use crate::marks::Marks;
use crate::words::{write_expression, write_name, write_number, write_two, write_type};
use bitflags::Flags;
use json_places::parts::members_of;
use json_places::{EntryPart, Spot};
use naga_below::{
    Binding, EntryPoint, Expression, Function, FunctionArgument, FunctionResult, GlobalVariable,
    Handle, LocalVariable, Module, Name, StructMember, tag,
};
use std::fmt;

/// What is at the beginning of a line: a mark where the fault is.
fn mark(is_marked: bool) -> &'static str {
    if is_marked { "\n> " } else { "\n  " }
}

/// Writes a binding, if there is one.
fn write_binding<W: fmt::Write>(out: &mut W, binding: &Option<Binding>) -> fmt::Result {
    match binding {
        Some(binding) => write!(out, ", {binding:?}"),
        None => Ok(()),
    }
}

/// Writes the arguments, the result and the locals of a function.
pub(crate) fn write_declarations<W: fmt::Write>(
    out: &mut W,
    module: &Module,
    function: &Function,
    spot: Spot,
) -> fmt::Result {
    let is_told = write_arguments(out, module, function, &spot)?;
    if let Some(returned) = &function.result {
        write_result(out, module, returned, &spot, is_told)?;
    }
    for (index, local) in function.local_variables.as_slice().iter().enumerate() {
        write_marked_local(out, module, index, local, &spot)?;
    }
    Ok(())
}

/// Writes the arguments, and after the first whose type has the member that is the spot, the members of that. It answers whether
/// they were written.
fn write_arguments<W: fmt::Write>(
    out: &mut W,
    module: &Module,
    function: &Function,
    spot: &Spot,
) -> Result<bool, fmt::Error> {
    let mut is_told = false;
    for (index, argument) in function.arguments.as_slice().iter().enumerate() {
        write_marked_argument(out, module, index, argument, spot)?;
        if !is_told {
            is_told = write_members(out, module, argument.ty, spot)?;
        }
    }
    Ok(is_told)
}

/// Writes an argument with its mark.
fn write_marked_argument<W: fmt::Write>(
    out: &mut W,
    module: &Module,
    index: usize,
    argument: &FunctionArgument,
    spot: &Spot,
) -> fmt::Result {
    out.write_str(mark(is_argument(spot, index)))?;
    write_argument(out, module, index, argument)
}

/// Writes the result, and the members of its type as those of an argument.
fn write_result<W: fmt::Write>(
    out: &mut W,
    module: &Module,
    returned: &FunctionResult,
    spot: &Spot,
    is_told: bool,
) -> fmt::Result {
    out.write_str(mark(matches!(spot, Spot::Returned)))?;
    out.write_str("result: ")?;
    write_type(out, module, returned.ty)?;
    write_binding(out, &returned.binding)?;
    if !is_told {
        write_members(out, module, returned.ty, spot)?;
    }
    Ok(())
}

/// Writes a local variable with its mark.
fn write_marked_local<W: fmt::Write>(
    out: &mut W,
    module: &Module,
    index: usize,
    local: &LocalVariable,
    spot: &Spot,
) -> fmt::Result {
    out.write_str(mark(is_local(spot, index)))?;
    write_local(out, module, index, local)
}

fn is_argument(spot: &Spot, index: usize) -> bool {
    match spot {
        Spot::Argument(at) => *at == index,
        _ => false,
    }
}

fn is_field(spot: &Spot, field: EntryPart) -> bool {
    match spot {
        Spot::Field(at) => *at == field,
        _ => false,
    }
}

fn is_mesh_field(spot: &Spot) -> bool {
    matches!(spot, Spot::MeshField(_))
}

fn is_local(spot: &Spot, index: usize) -> bool {
    match spot {
        Spot::Local(local) => local.index() == index,
        _ => false,
    }
}

/// Writes a name, if there is one, and a type.
fn write_typed<W: fmt::Write>(
    out: &mut W,
    module: &Module,
    name: &Option<Name>,
    ty: Handle<tag::Type>,
) -> fmt::Result {
    write_name(out, name)?;
    out.write_str(": ")?;
    write_type(out, module, ty)
}

fn write_argument<W: fmt::Write>(
    out: &mut W,
    module: &Module,
    index: usize,
    argument: &FunctionArgument,
) -> fmt::Result {
    let FunctionArgument { name, ty, binding } = argument;
    write_number(out, "argument ", index, "")?;
    write_typed(out, module, name, *ty)?;
    write_binding(out, binding)
}

fn write_local<W: fmt::Write>(
    out: &mut W,
    module: &Module,
    index: usize,
    local: &LocalVariable,
) -> fmt::Result {
    write_number(out, "local [", index, "]")?;
    write_typed(out, module, &local.name, local.ty)?;
    write_init(out, local.init)
}

/// Writes an initializer, if there is one.
fn write_init<W: fmt::Write>(out: &mut W, init: Option<Handle<tag::Expression>>) -> fmt::Result {
    match init {
        Some(init) => write_number(out, ", init [", init.index(), "]"),
        None => Ok(()),
    }
}

/// Writes the members of a struct, if one of them has the fault, and answers whether it did. They are written once, since many
/// arguments may be of one struct.
fn write_members<W: fmt::Write>(
    out: &mut W,
    module: &Module,
    ty: Handle<tag::Type>,
    spot: &Spot,
) -> Result<bool, fmt::Error> {
    let Spot::Member {
        ty: marked,
        index: at,
    } = spot
    else {
        return Ok(false);
    };
    if *marked != ty {
        return Ok(false);
    }
    for (index, member) in members_of(module, ty).iter().enumerate() {
        out.write_str(mark(index == *at))?;
        write_member(out, module, index, member)?;
    }
    Ok(true)
}

/// Writes a member of a struct.
fn write_member<W: fmt::Write>(
    out: &mut W,
    module: &Module,
    index: usize,
    member: &StructMember,
) -> fmt::Result {
    write_number(out, "  member ", index, "")?;
    write_typed(out, module, &member.name, member.ty)?;
    write_binding(out, &member.binding)
}

/// Writes a field of an entry point, with its mark.
fn write_field<W: fmt::Write, T: fmt::Debug>(
    out: &mut W,
    is_marked: bool,
    name: &str,
    value: &T,
) -> fmt::Result {
    out.write_str(mark(is_marked))?;
    out.write_str(name)?;
    write!(out, "{value:?}")
}

/// Writes the stage of an entry point and what else it declares beside its function.
pub(crate) fn write_entry<W: fmt::Write>(
    out: &mut W,
    module: &Module,
    ep: &EntryPoint,
    spot: Spot,
) -> fmt::Result {
    let is_at = is_field(&spot, EntryPart::Stage);
    write_field(out, is_at, "stage: ", &ep.stage)?;
    let is_at = is_field(&spot, EntryPart::WorkgroupSize);
    write_field(out, is_at, "workgroup_size: ", &ep.workgroup_size)?;
    let is_at = is_field(&spot, EntryPart::EarlyDepthTest);
    if ep.early_depth_test.is_some() || is_at {
        write_field(out, is_at, "early_depth_test: ", &ep.early_depth_test)?;
    }
    let is_at = is_field(&spot, EntryPart::TaskPayload);
    if ep.task_payload.is_some() || is_at {
        write_field(out, is_at, "task_payload: ", &ep.task_payload)?;
    }
    write_mesh(out, module, ep, spot)
}

/// Writes what an entry point declares of a mesh.
fn write_mesh<W: fmt::Write>(
    out: &mut W,
    module: &Module,
    ep: &EntryPoint,
    spot: Spot,
) -> fmt::Result {
    let is_marked = is_field(&spot, EntryPart::MeshInfo) || is_mesh_field(&spot);
    let Some(mesh) = &ep.mesh_info else {
        if is_marked {
            out.write_str("\n> mesh_info: None")?;
        }
        return Ok(());
    };
    write_field(out, is_marked, "mesh_info: ", mesh)?;
    if !write_members(out, module, mesh.vertex_output_type, &spot)? {
        write_members(out, module, mesh.primitive_output_type, &spot)?;
    }
    Ok(())
}

/// At most so many expressions are written for the sake of statements that don't have the fault.
const MOST_EXPRESSIONS: usize = 100;

/// Writes expressions, if there are some: all that the shown statements name, or where these are too many those that the fault
/// is about, and how many are left out.
pub(crate) fn write_expressions<W: fmt::Write>(
    out: &mut W,
    function: &Function,
    marks: &Marks,
    all: &Marks,
    spot: Spot,
) -> fmt::Result {
    let count = all.count();
    if count == 0 {
        return Ok(());
    }
    out.write_str("\nexpressions:")?;
    if count <= MOST_EXPRESSIONS {
        return write_marked(out, function, all, spot);
    }
    write_marked(out, function, marks, spot)?;
    match count.saturating_sub(marks.count()) {
        0 => Ok(()),
        left => {
            write_number(
                out,
                "\n  .. ",
                left,
                " more, which other statements below name",
            )
        }
    }
}

/// Writes the expressions that are marked.
fn write_marked<W: fmt::Write>(
    out: &mut W,
    function: &Function,
    marks: &Marks,
    spot: Spot,
) -> fmt::Result {
    for (index, expression) in function.expressions.as_slice().iter().enumerate() {
        if marks.has(index) {
            let is_marked = match spot {
                Spot::Expression(handle) => handle.index() == index,
                _ => false,
            };
            out.write_str(mark(is_marked))?;
            write_number(out, "[", index, "] ")?;
            write_expression(out, expression)?;
            write_variable_name(out, function, expression)?;
        }
    }
    Ok(())
}

/// Writes the name of the local or the argument that an expression is, if it has one.
fn write_variable_name<W: fmt::Write>(
    out: &mut W,
    function: &Function,
    expression: &Expression,
) -> fmt::Result {
    match expression {
        Expression::LocalVariable(local) => {
            match function.local_variables.as_slice().get(local.index()) {
                Some(local) => write_name(out, &local.name),
                None => Ok(()),
            }
        }
        Expression::FunctionArgument(index) => {
            match function.arguments.as_slice().get(*index as usize) {
                Some(argument) => write_name(out, &argument.name),
                None => Ok(()),
            }
        }
        _ => Ok(()),
    }
}

/// Writes a global.
pub(crate) fn write_global<W: fmt::Write>(
    out: &mut W,
    module: &Module,
    handle: Handle<tag::GlobalVariable>,
) -> fmt::Result {
    let Some(global) = module.global_variables.as_slice().get(handle.index()) else {
        return Ok(());
    };
    let GlobalVariable {
        space,
        binding,
        ty,
        init,
        memory_decorations,
    } = *global;
    write_number(out, "\n> global [", handle.index(), "]: space ")?;
    write!(out, "{space:?}, ")?;
    write_type(out, module, ty)?;
    if let Some(binding) = binding {
        let (group, number) = (binding.group as usize, binding.binding as usize);
        write_two(out, ", group ", group, ", binding ", number, "")?;
    }
    write_init(out, init)?;
    if memory_decorations.is_empty() {
        Ok(())
    } else {
        write!(out, ", {memory_decorations:?}")
    }
}
