//! Statements, parts of statements and types in the words of the IR.

use json_places::StatementPart;
use layer_sentences::kinds::name_of;
use naga_below::{Expression, Handle, Module, Name, Range, Statement, SwitchCase, TypeInner, tag};
use std::fmt;

/// Writes spaces.
pub(crate) fn write_spaces<W: fmt::Write>(out: &mut W, count: usize) -> fmt::Result {
    for _ in 0..count {
        out.write_char(' ')?;
    }
    Ok(())
}

/// Writes a number between two texts.
pub(crate) fn write_number<W: fmt::Write>(
    out: &mut W,
    before: &str,
    number: usize,
    after: &str,
) -> fmt::Result {
    out.write_str(before)?;
    write!(out, "{number}")?;
    out.write_str(after)
}

/// Writes a name, if there is one.
pub(crate) fn write_name<W: fmt::Write>(out: &mut W, name: &Option<Name>) -> fmt::Result {
    match name {
        Some(name) => write!(out, " {name:?}"),
        None => Ok(()),
    }
}

/// Writes two numbers, with texts before, between and after them.
pub(crate) fn write_two<W: fmt::Write>(
    out: &mut W,
    before: &str,
    first: usize,
    between: &str,
    second: usize,
    after: &str,
) -> fmt::Result {
    write_number(out, before, first, between)?;
    write_number(out, "", second, after)
}

/// Writes a statement without those that it holds.
pub(crate) fn write_statement<W: fmt::Write>(out: &mut W, statement: &Statement) -> fmt::Result {
    match statement {
        Statement::Emit(range) => write_emit(out, range),
        Statement::Block(_) => out.write_str("Block"),
        Statement::If { condition, .. } => {
            write_number(out, "If { condition: [", condition.index(), "] }")
        }
        Statement::Switch { selector, cases } => write_two(
            out,
            "Switch { selector: [",
            selector.index(),
            "] } of ",
            cases.len(),
            " cases",
        ),
        Statement::Loop { break_if, .. } => write!(out, "Loop {{ break_if: {break_if:?} }}"),
        Statement::Break
        | Statement::Continue
        | Statement::Return { .. }
        | Statement::Kill
        | Statement::ControlBarrier(_)
        | Statement::MemoryBarrier(_)
        | Statement::Store { .. }
        | Statement::ImageStore { .. }
        | Statement::Atomic { .. }
        | Statement::ImageAtomic { .. }
        | Statement::WorkGroupUniformLoad { .. }
        | Statement::Call { .. }
        | Statement::RayQuery { .. }
        | Statement::RayPipelineFunction(_)
        | Statement::SubgroupBallot { .. }
        | Statement::SubgroupGather { .. }
        | Statement::SubgroupCollectiveOperation { .. }
        | Statement::CooperativeStore { .. } => write!(out, "{statement:?}"),
    }
}

/// Writes an Emit with the expressions that it emits, of more than two the first and the last.
fn write_emit<W: fmt::Write>(out: &mut W, range: &Range) -> fmt::Result {
    let (start, end) = (range.start, range.end);
    if end <= start {
        return out.write_str("Emit nothing");
    }
    let last = end.saturating_sub(1);
    if start == last {
        write_number(out, "Emit [", start as usize, "]")
    } else {
        write_two(out, "Emit [", start as usize, "] to [", last as usize, "]")
    }
}

/// Writes an expression: an operator or a function by its name, all others as the IR has them.
pub(crate) fn write_expression<W: fmt::Write>(out: &mut W, expression: &Expression) -> fmt::Result {
    let name = name_of(expression);
    match expression {
        Expression::Unary { operands, .. }
        | Expression::Binary { operands, .. }
        | Expression::Relational { operands, .. }
        | Expression::Math { operands, .. }
            if !is_kind(name) => { write!(out, "{name} {{ operands: {operands:?} }}") }
        Expression::Splat { detail, operands }
        | Expression::Swizzle { detail, operands }
        | Expression::ImageSample { detail, operands }
        | Expression::ImageLoad { detail, operands }
        | Expression::ImageQuery { detail, operands }
        | Expression::Unary { detail, operands }
        | Expression::Binary { detail, operands }
        | Expression::Select { detail, operands }
        | Expression::Derivative { detail, operands }
        | Expression::Relational { detail, operands }
        | Expression::Math { detail, operands }
        | Expression::As { detail, operands }
        | Expression::ArrayLength { detail, operands }
        | Expression::RayQueryGetIntersection { detail, operands }
        | Expression::RayQueryVertexPositions { detail, operands }
        | Expression::CooperativeLoad { detail, operands }
        | Expression::CooperativeMultiplyAdd { detail, operands } => write!(
            out,
            "{name} {{ operands: {operands:?}, detail: {detail} }}"
        ),
        Expression::Literal(_)
        | Expression::Constant(_)
        | Expression::Override(_)
        | Expression::ZeroValue(_)
        | Expression::Compose { .. }
        | Expression::Access { .. }
        | Expression::AccessIndex { .. }
        | Expression::FunctionArgument(_)
        | Expression::GlobalVariable(_)
        | Expression::LocalVariable(_)
        | Expression::Load { .. }
        | Expression::CallResult(_)
        | Expression::AtomicResult { .. }
        | Expression::WorkGroupUniformLoadResult { .. }
        | Expression::RayQueryProceedResult
        | Expression::SubgroupBallotResult
        | Expression::SubgroupOperationResult { .. } => write!(out, "{expression:?}"),
    }
}

/// Whether a name is that of a kind of expressions, since their operator or function has none.
fn is_kind(name: &str) -> bool {
    matches!(name, "Unary" | "Binary" | "Relational" | "Math")
}

/// Writes what a part of a statement is called.
pub(crate) fn write_part<W: fmt::Write>(
    out: &mut W,
    statement: &Statement,
    part: StatementPart,
) -> fmt::Result {
    match part {
        StatementPart::Block => out.write_str("the list"),
        StatementPart::Accept => out.write_str("accept"),
        StatementPart::Reject => out.write_str("reject"),
        StatementPart::Body => out.write_str("body"),
        StatementPart::Continuing => out.write_str("continuing"),
        StatementPart::BreakIf => out.write_str("break_if"),
        StatementPart::Case(index) => match statement {
            Statement::Switch { cases, .. } => match cases.as_slice().get(index) {
                Some(case) => write_case(out, index, case),
                None => write_number(out, "case ", index, ""),
            },
            _ => write_number(out, "case ", index, ""),
        },
    }
}

fn write_case<W: fmt::Write>(out: &mut W, index: usize, case: &SwitchCase) -> fmt::Result {
    let value = case.value;
    write_number(out, "case ", index, ", ")?;
    write!(out, "{value:?}")?;
    if case.fall_through {
        out.write_str(", which falls through")?;
    }
    Ok(())
}

/// Writes the handle of a type, and the type.
pub(crate) fn write_type<W: fmt::Write>(
    out: &mut W,
    module: &Module,
    handle: Handle<tag::Type>,
) -> fmt::Result {
    write_number(out, "type [", handle.index(), "]")?;
    let Some(ty) = module.types.as_slice().get(handle.index()) else {
        return Ok(());
    };
    write_name(out, &ty.name)?;
    match &ty.inner {
        TypeInner::Struct { members, .. } => {
            write_number(out, ", Struct of ", members.len(), " members")
        }
        inner => write!(out, ", {inner:?}"),
    }
}
