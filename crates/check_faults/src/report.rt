//! Refusals as text for a person.

use crate::entry::EntryPointError;
use crate::module::ModuleFault;
use crate::sentences::{Explain, explain_inside};
use ir_arena::{Handle, Refusal, Span, tag};
use ir_errors::{CallError, ExpressionError, FunctionError};
use std::error::Error;
use std::fmt;

/// What was judged: a function or a global by its handle, or an entry point by its index, counted from 0.
#[derive(Clone, Copy, PartialEq, Eq, Debug)]
pub enum Subject {
    Function(Handle<tag::Function>),
    GlobalVariable(Handle<tag::GlobalVariable>),
    EntryPoint(usize),
}

impl fmt::Display for Subject {
    fn fmt<W: fmt::Write>(&self, f: &mut fmt::Formatter<W>) -> fmt::Result {
        match self {
            Subject::Function(function) => write!(f, "function {function:?}"),
            Subject::GlobalVariable(global) => write!(f, "global {global:?}"),
            Subject::EntryPoint(index) => write!(f, "entry point {index}"),
        }
    }
}

/// Writes why something was refused, on one line without a newline. It allocates nothing.
///
/// The line has what was judged, the spans of the fault, if there are any, the fault with its fields, and a sentence:
/// `function [2]: 50..55: InvalidReturnSpot: a return stands in a continuing block`.
///
/// An Err is that of the writer.
pub fn write_refusal<E: Explain, W: fmt::Write>(
    writer: &mut W,
    subject: Subject,
    refusal: &Refusal<E>,
) -> fmt::Result {
    match refusal {
        Refusal::Fault(fault) => write_fault(writer, subject, fault.spans(), fault.as_inner()),
        Refusal::Memory => write!(writer, "{subject}: Memory: out of memory"),
    }
}

/// Writes a fault as [`write_refusal`] does, with these spans. An Err is that of the writer.
pub fn write_fault<E: Explain, W: fmt::Write>(
    writer: &mut W,
    subject: Subject,
    spans: &[Span],
    fault: &E,
) -> fmt::Result {
    write!(writer, "{subject}: ")?;
    write_spans(writer, spans)?;
    write!(writer, "{fault:?}: ")?;
    fault.explain(writer)
}

/// Writes why a module was refused, as [`write_refusal`] does. `NotFit` and `Memory` have no subject and no span. An Err is that
/// of the writer.
pub fn write_module_fault<W: fmt::Write>(writer: &mut W, fault: &ModuleFault) -> fmt::Result {
    match fault {
        ModuleFault::NotFit => {
            writer.write_str("NotFit: ")?;
            writer.write_str(NOT_FIT)
        }
        ModuleFault::Global(global, error) => {
            write_fault(writer, Subject::GlobalVariable(*global), &[], error)
        }
        ModuleFault::Function(function, error) => write_fault(
            writer,
            Subject::Function(*function),
            error.spans(),
            error.as_inner(),
        ),
        ModuleFault::EntryPoint(index, error) => write_fault(
            writer,
            Subject::EntryPoint(*index),
            error.spans(),
            error.as_inner(),
        ),
        ModuleFault::Memory => writer.write_str("Memory: out of memory"),
    }
}

/// What is known of where a fault stands, beside its spans.
#[derive(Clone, Copy, PartialEq, Eq, Debug)]
pub struct Whereabouts<'a> {
    /// Where in a document it stands, as a JSON pointer.
    pub place: Option<&'a str>,
    /// Whether the fault is that a Continue may skip the emission of the expression that isn't in scope.
    pub is_skipped: bool,
}

impl Whereabouts<'_> {
    /// Nothing is known.
    pub const UNKNOWN: Whereabouts<'static> = Whereabouts {
        place: None,
        is_skipped: false,
    };
}

/// Writes why a module was refused, on several lines without a newline at the end. It allocates nothing.
///
/// The lines are: what has the fault and the fault with its fields; its spans, if there are any; its place in a document,
/// if it is known; and a sentence:
/// ```text
/// function 0: Expression { handle: [1], source: NotInScope }
///   at 80..89
///   place: /module/functions/0/body/1
///   an expression, or an operand of a statement, is invalid: the expression is not in scope where it is used
/// ```
/// An Err is that of the writer.
pub fn write_module_fault_lines<W: fmt::Write>(
    writer: &mut W,
    fault: &ModuleFault,
    known: Whereabouts<'_>,
) -> fmt::Result {
    match fault {
        ModuleFault::NotFit => {
            writer.write_str("NotFit\n  ")?;
            writer.write_str(NOT_FIT)
        }
        ModuleFault::Global(global, error) => {
            let index = global.index();
            write!(writer, "global {index}: {error:?}")?;
            write_whereabouts(writer, &[], known)?;
            error.explain(writer)
        }
        ModuleFault::Function(function, error) => {
            let index = function.index();
            let inner = error.as_inner();
            write!(writer, "function {index}: {inner:?}")?;
            write_whereabouts(writer, error.spans(), known)?;
            explain_function(writer, inner, known)
        }
        ModuleFault::EntryPoint(index, error) => {
            write!(writer, "entry point {index}: ")?;
            write_entry_fault(writer, error.as_inner())?;
            write_whereabouts(writer, error.spans(), known)?;
            explain_entry(writer, error.as_inner(), known)
        }
        ModuleFault::Memory => writer.write_str("Memory\n  out of memory"),
    }
}

/// The sentence of `NotFit`.
const NOT_FIT: &str =
    "a handle or a range is out of bounds or out of order, a fact is missing, or a global is where none may be";

/// The sentence of `NotInScope` where a Continue is why.
const SKIPPED: &str =
    "a run that takes a Continue comes here without having emitted the expression";

/// The fault of an entry point, with the name of its part before a fault inside.
fn write_entry_fault<W: fmt::Write>(writer: &mut W, fault: &EntryPointError) -> fmt::Result {
    match fault {
        EntryPointError::Function(error) => write!(writer, "Function: {error:?}"),
        EntryPointError::Argument(index, error) => write!(writer, "Argument {index}: {error:?}"),
        EntryPointError::Result(error) => write!(writer, "Result: {error:?}"),
        _ => write!(writer, "{fault:?}"),
    }
}

/// The spans of a fault and its place, each on a line, and the beginning of the next line.
fn write_whereabouts<W: fmt::Write>(
    writer: &mut W,
    spans: &[Span],
    known: Whereabouts<'_>,
) -> fmt::Result {
    if !spans.is_empty() {
        writer.write_str("\n  at ")?;
        list_spans(writer, spans)?;
    }
    if let Some(place) = known.place {
        write!(writer, "\n  place: {place}")?;
    }
    writer.write_str("\n  ")
}

/// What the fault of an entry point means.
fn explain_entry<W: fmt::Write>(
    writer: &mut W,
    fault: &EntryPointError,
    known: Whereabouts<'_>,
) -> fmt::Result {
    match fault {
        EntryPointError::Function(error) if known.is_skipped => {
            writer.write_str(fault.sentence())?;
            writer.write_str(": ")?;
            explain_function(writer, error, known)
        }
        _ => fault.explain(writer),
    }
}

/// What the fault of a function means. Where a Continue is why an expression isn't in scope, the sentence says so.
fn explain_function<W: fmt::Write>(
    writer: &mut W,
    fault: &FunctionError,
    known: Whereabouts<'_>,
) -> fmt::Result {
    match fault {
        FunctionError::Expression {
            source: ExpressionError::NotInScope,
            ..
        } if known.is_skipped => {
            writer.write_str(fault.sentence())?;
            writer.write_str(": ")?;
            writer.write_str(SKIPPED)
        }
        FunctionError::InvalidCall { error, .. } if known.is_skipped => {
            explain_call(writer, fault, error)
        }
        _ => fault.explain(writer),
    }
}

/// The same of a call.
fn explain_call<W: fmt::Write>(
    writer: &mut W,
    fault: &FunctionError,
    error: &CallError,
) -> fmt::Result {
    writer.write_str(fault.sentence())?;
    match error {
        CallError::Argument {
            source: ExpressionError::NotInScope,
            ..
        } => {
            writer.write_str(": ")?;
            writer.write_str(error.sentence())?;
            writer.write_str(": ")?;
            writer.write_str(SKIPPED)
        }
        _ => explain_inside(error, writer),
    }
}

/// Writes the variant's name.
impl fmt::Display for ModuleFault {
    fn fmt<W: fmt::Write>(&self, f: &mut fmt::Formatter<W>) -> fmt::Result {
        f.write_str(match self {
            ModuleFault::NotFit => "NotFit",
            ModuleFault::Global(_, _) => "Global",
            ModuleFault::Function(_, _) => "Function",
            ModuleFault::EntryPoint(_, _) => "EntryPoint",
            ModuleFault::Memory => "Memory",
        })
    }
}

impl Error for ModuleFault {}

/// Writes spans with a comma between them and a colon after the last.
fn write_spans<W: fmt::Write>(writer: &mut W, spans: &[Span]) -> fmt::Result {
    if spans.is_empty() {
        return Ok(());
    }
    list_spans(writer, spans)?;
    writer.write_str(": ")
}

/// Writes spans with a comma between them.
fn list_spans<W: fmt::Write>(writer: &mut W, spans: &[Span]) -> fmt::Result {
    let mut between = "";
    for span in spans {
        let (start, end) = (span.start, span.end);
        write!(writer, "{between}{start}..{end}")?;
        between = ", ";
    }
    Ok(())
}
