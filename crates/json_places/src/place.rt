//! Where in a document something stands, as a JSON pointer.

use crate::spot::Spot;
use crate::statements::{Inside, ListedPosition, ListedStatement, StatementPart, way_to};
use check_faults::Subject;
use ir_misfits::Shortage;
use json_nodes::Step;
use naga_below::Span;
use std::alloc::{AllocError, Global};
use std::fmt;

/// The way from a document to something in it.
///
/// It leads through `statement` where a statement is written with a span other than 0..0.
#[derive(Drop)]
pub struct JsonPointer {
    /// The first step leads from the whole document.
    pub steps: Vec<Step>,
}

/// Writes a slash before each step.
impl fmt::Display for JsonPointer {
    fn fmt<W: fmt::Write>(&self, f: &mut fmt::Formatter<W>) -> fmt::Result {
        for step in self.steps.as_slice() {
            match step {
                Step::Name(name) => write!(f, "/{name}")?,
                Step::Index(index) => write!(f, "/{index}")?,
            }
        }
        Ok(())
    }
}

/// Adds a name.
pub(crate) fn add_name(steps: &mut Vec<Step>, name: &'static str) -> Result<(), AllocError> {
    steps.push(Step::Name(name))?;
    Ok(())
}

/// Adds an index.
pub(crate) fn add_index(steps: &mut Vec<Step>, index: usize) -> Result<(), AllocError> {
    steps.push(Step::Index(index))?;
    Ok(())
}

/// Adds the way to an item of a list.
pub(crate) fn add_item(
    steps: &mut Vec<Step>,
    list: &'static str,
    index: usize,
) -> Result<(), AllocError> {
    add_name(steps, list)?;
    add_index(steps, index)
}

/// Adds the way to a field of a field.
pub(crate) fn add_field(
    steps: &mut Vec<Step>,
    whole: &'static str,
    field: &'static str,
) -> Result<(), AllocError> {
    add_name(steps, whole)?;
    add_name(steps, field)
}

/// The pointer to what has a fault. `listed` are the statements of the function's body. An Err is out of memory.
pub(crate) fn place_of(
    alloc: Global,
    subject: Subject,
    spot: Spot,
    listed: &[ListedStatement<'_>],
) -> Result<JsonPointer, AllocError> {
    let mut steps = Vec::new(alloc);
    add_spot(alloc, &mut steps, subject, spot, listed)?;
    Ok(JsonPointer { steps })
}

/// Adds the way from the document to what has a fault.
fn add_spot(
    alloc: Global,
    steps: &mut Vec<Step>,
    subject: Subject,
    spot: Spot,
    listed: &[ListedStatement<'_>],
) -> Result<(), AllocError> {
    match spot {
        Spot::Facts(shortage) => add_shortage(steps, &subject, shortage),
        Spot::Global(global) => {
            add_name(steps, "module")?;
            add_item(steps, "global_variables", global.index())
        }
        Spot::Member { ty, index } => {
            add_name(steps, "module")?;
            add_item(steps, "types", ty.index())?;
            add_members(steps, "inner")?;
            add_index(steps, index)
        }
        _ => {
            add_name(steps, "module")?;
            add_subject(steps, &subject)?;
            add_inner(alloc, steps, subject, spot, listed)
        }
    }
}

/// Adds the way from a type to its members.
pub(crate) fn add_members(steps: &mut Vec<Step>, inner: &'static str) -> Result<(), AllocError> {
    add_field(steps, inner, "Struct")?;
    add_name(steps, "members")
}

/// Adds the way from the document to what is short or breaks a law in the facts of a function.
fn add_shortage(
    steps: &mut Vec<Step>,
    subject: &Subject,
    shortage: Shortage,
) -> Result<(), AllocError> {
    add_name(steps, "facts")?;
    if let Shortage::NoFact { .. } = shortage {
        return add_name(
            steps,
            match subject {
                Subject::EntryPoint(_) => "entry_points",
                Subject::Function(_) | Subject::GlobalVariable(_) => "functions",
            },
        );
    }
    add_subject(steps, subject)?;
    add_name(steps, "info")?;
    match shortage {
        Shortage::Types { .. } => add_name(steps, "types"),
        Shortage::UnknownType { expression, .. } | Shortage::StructValue { expression } => {
            add_item(steps, "types", expression)
        }
        Shortage::Uses { .. } => add_name(steps, "uses"),
        Shortage::Expressions { .. } => add_name(steps, "expressions"),
        Shortage::NoFact { .. } => Ok(()),
    }
}

/// Adds the way to what was judged.
fn add_subject(steps: &mut Vec<Step>, subject: &Subject) -> Result<(), AllocError> {
    match subject {
        Subject::Function(function) => add_item(steps, "functions", function.index()),
        Subject::GlobalVariable(global) => add_item(steps, "global_variables", global.index()),
        Subject::EntryPoint(index) => add_item(steps, "entry_points", *index),
    }
}

/// Adds the way from there to what has the fault.
fn add_inner(
    alloc: Global,
    steps: &mut Vec<Step>,
    subject: Subject,
    spot: Spot,
    listed: &[ListedStatement<'_>],
) -> Result<(), AllocError> {
    match spot {
        Spot::Field(field) => add_name(steps, field.name()),
        Spot::MeshField(field) => add_field(steps, "mesh_info", field.name()),
        Spot::Whole | Spot::Global(_) | Spot::Member { .. } | Spot::Facts(_) | Spot::Misfit => Ok(
            (),
        ),
        _ => {
            if let Subject::EntryPoint(_) = subject {
                add_name(steps, "function")?;
            }
            add_in_function(alloc, steps, spot, listed)
        }
    }
}

/// Adds the way from a function to what has the fault.
fn add_in_function(
    alloc: Global,
    steps: &mut Vec<Step>,
    spot: Spot,
    listed: &[ListedStatement<'_>],
) -> Result<(), AllocError> {
    match spot {
        Spot::At(position) => add_position(alloc, steps, position, listed),
        Spot::Expression(handle) => add_item(steps, "expressions", handle.index()),
        Spot::Local(local) => add_item(steps, "local_variables", local.index()),
        Spot::Argument(index) => add_item(steps, "arguments", index),
        _ => add_name(steps, "result"),
    }
}

/// Adds the way from a function to a statement, or to a break condition.
pub(crate) fn add_position(
    alloc: Global,
    steps: &mut Vec<Step>,
    position: ListedPosition,
    listed: &[ListedStatement<'_>],
) -> Result<(), AllocError> {
    add_name(steps, "body")?;
    let way = way_to(alloc, listed, position)?;
    add_way(steps, way.as_slice(), listed)?;
    if let ListedPosition::Statement(number) = position {
        if let Some(node) = listed.get(number) {
            return add_index(steps, node.index);
        }
    }
    Ok(())
}

/// Adds the way from a body to a part inside it.
fn add_way(
    steps: &mut Vec<Step>,
    way: &[Inside],
    listed: &[ListedStatement<'_>],
) -> Result<(), AllocError> {
    for inside in way {
        if let Some(node) = listed.get(inside.number) {
            add_statement(steps, node)?;
            add_part(steps, inside.part)?;
        }
    }
    Ok(())
}

/// Adds the way from a list to one of its statements.
fn add_statement(steps: &mut Vec<Step>, node: &ListedStatement<'_>) -> Result<(), AllocError> {
    add_index(steps, node.index)?;
    if node.located.span != Span::UNDEFINED {
        return add_name(steps, "statement");
    }
    Ok(())
}

/// Adds the way from a statement to a part of it.
fn add_part(steps: &mut Vec<Step>, part: StatementPart) -> Result<(), AllocError> {
    match part {
        StatementPart::Block => add_name(steps, "Block"),
        StatementPart::Accept => add_field(steps, "If", "accept"),
        StatementPart::Reject => add_field(steps, "If", "reject"),
        StatementPart::Case(index) => {
            add_name(steps, "Switch")?;
            add_item(steps, "cases", index)?;
            add_name(steps, "body")
        }
        StatementPart::Body => add_field(steps, "Loop", "body"),
        StatementPart::Continuing => add_field(steps, "Loop", "continuing"),
        StatementPart::BreakIf => add_field(steps, "Loop", "break_if"),
    }
}
