//! Verdicts as JSON.

ghost use Rattle.std.specs.Prelude.{IfOk, string_bytes};
ghost use Rattle.json_faults.specs.JsonForm.{Writes, list_form, span_form};
ghost use Rattle.json_answers.specs.VerdictIds.{maybe_with_id};
ghost use Rattle.json_answers.specs.VerdictJson.{IsJsonOf, WritesFault, WritesPlaced, WritesVerdict, function_form, infos_form, part_form, placed_form, unreadable_at, unreadable_form};

use crate::named::open_named;
use crate::pointer::{pointer_text, push_step};
use crate::verdict::{Examined, Verdict};
use check_faults::ModuleFault;
use json_document::{Id, Unreadable};
use json_faults::parts::{four_fields, holding, two_fields};
use json_faults::to_json::{ToJson, write_list};
use json_faults::writer::JsonWriter;
use json_places::Found;
use naga_below::{FunctionInfo, ModuleInfo, Span};
use std::alloc::{AllocError, Global};

/// The verdict as JSON, on one line, without white space and without a newline at the end. The id of its document is the
/// first field. An Err is out of memory.
pub fn json_line(alloc: Global, examined: &Examined) -> Result<String, AllocError>
    ensures { IfOk result (λ text. IsJsonOf examined.now.id examined.now.verdict examined.now.misfit (string_bytes text)) }
{
    let mut out = JsonWriter::new(alloc);
    write_verdict(alloc, &mut out, examined)?;
    Ok(out.into_text())
}

/// Writes the verdict as a JSON value, with the id of its document. An Err is out of memory.
pub fn write_verdict(
    alloc: Global,
    out: &mut JsonWriter,
    examined: &Examined,
) -> Result<(), AllocError>
    ensures { WritesVerdict result out.old out.new examined.now.id examined.now.verdict examined.now.misfit }
{
    match &examined.verdict {
        Verdict::Accepted { infos, .. } => write_infos(out, &examined.id, infos),
        Verdict::Refused(fault) => write_found(alloc, out, fault, examined),
        Verdict::Unreadable(unreadable) => {
            write_unreadable(alloc, out, &examined.id, unreadable)
        }
    }
}

/// Writes the fault of a module with its place, if that is known.
fn write_found(
    alloc: Global,
    out: &mut JsonWriter,
    fault: &ModuleFault,
    examined: &Examined,
) -> Result<(), AllocError>
    ensures { WritesFault result out.old out.new examined.now.id examined.now.misfit fault.now }
{
    match place_text(alloc, examined.found()) {
        Ok(place) => write_refused(out, fault, examined, &place),
        Err(error) => Err(error),
    }
}

/// The place of a fault, if it is known.
fn place_text(alloc: Global, found: Option<&Found>) -> Result<Option<String>, AllocError> {
    let Some(found) = found else {
        return Ok(None);
    };
    let mut text = String::new(alloc);
    for step in found.place.steps.as_slice() {
        push_step(&mut text, *step)?;
    }
    Ok(Some(text))
}

/// What is known of functions: the stages that the body of each could run in.
#[derive(Clone, Copy)]
struct Functions<'a>(&'a [FunctionInfo]);

impl ToJson for Functions<'_> {
    ghost form = { λ functions. list_form function_form functions.0.now };

    #[tactic(auto, unfolding(json_faults::specs::JsonForm::list_form))]
    fn write_json(&self, out: &mut JsonWriter) -> Result<(), AllocError> {
        out.begin_array()?;
        for function in self.0 {
            function.available_stages.write_json(out)?;
        }
        out.end_array()
    }
}

/// What is known of each function, and of each entry point.
#[tactic(auto, unfolding(crate::specs::VerdictJson::infos_form))]
fn write_infos(out: &mut JsonWriter, id: &Option<Id>, infos: &ModuleInfo) -> Result<(), AllocError>
    ensures { Writes result out.old out.new (maybe_with_id id.now (infos_form infos.now)) }
{
    let functions = Functions(infos.functions.as_slice());
    open_named(out, id, "ok")?;
    two_fields(
        out,
        &("functions", "entry_points"),
        &functions,
        &infos.entry_points,
    )?;
    out.end_object()
}

/// A part of a module: its kind, and its index.
#[derive(Clone, Copy)]
struct ModulePart {
    kind: &'static str,
    index: usize,
}

impl ToJson for ModulePart {
    ghost form = { λ part. part_form part.kind.now part.index };

    #[tactic(auto, unfolding(crate::specs::VerdictJson::part_form))]
    fn write_json(&self, out: &mut JsonWriter) -> Result<(), AllocError> {
        holding(out, self.kind, &self.index)
    }
}

/// The spans of a fault.
#[derive(Clone, Copy)]
struct Spans<'a>(&'a [Span]);

impl ToJson for Spans<'_> {
    ghost form = { λ spans. list_form span_form spans.0.now };

    fn write_json(&self, out: &mut JsonWriter) -> Result<(), AllocError> {
        write_list(out, self.0)
    }
}

/// What has the fault, the fault, its spans, and its place, which may be null.
fn write_placed<P: ToJson, F: ToJson, L: ToJson>(
    out: &mut JsonWriter,
    id: &Option<Id>,
    at: &P,
    fault: &F,
    spans: &[Span],
    place: &L,
) -> Result<(), AllocError>
    ensures { Writes result out.old out.new (maybe_with_id id.now
        (placed_form (P.form at.now) (F.form fault.now) spans.now (L.form place.now))) }
{
    open_named(out, id, "refused")?;
    four_fields(
        out,
        &("at", "fault", "spans", "place"),
        at,
        fault,
        &Spans(spans),
        place,
    )?;
    out.end_object()
}

/// The same of a place that is known, or of none.
fn write_fault<P: ToJson, F: ToJson>(
    out: &mut JsonWriter,
    id: &Option<Id>,
    at: &P,
    fault: &F,
    spans: &[Span],
    place: &Option<String>,
) -> Result<(), AllocError>
    ensures { WritesPlaced result out.old out.new id.now (P.form at.now) (F.form fault.now) spans.now }
{
    match place {
        Some(text) => write_placed(out, id, at, fault, spans, &text.as_str()),
        None => {
            let nothing: Option<usize> = None;
            write_placed(out, id, at, fault, spans, &nothing)
        }
    }
}

/// The fault of a module that was judged, or out of memory.
#[tactic(auto, unfolding(crate::specs::VerdictJson::refused_form))]
fn write_refused(
    out: &mut JsonWriter,
    fault: &ModuleFault,
    examined: &Examined,
    place: &Option<String>,
) -> Result<(), AllocError>
    ensures { WritesFault result out.old out.new examined.now.id examined.now.misfit fault.now }
{
    let id = &examined.id;
    match fault {
        ModuleFault::NotFit => write_fault(out, id, &"NotFit", &examined.misfit, &[], place),
        ModuleFault::Global(global, error) => {
            write_fault(
                out,
                id,
                &ModulePart {
                    kind: "Global",
                    index: global.index(),
                },
                error,
                &[],
                place,
            )
        }
        ModuleFault::Function(function, error) => write_fault(
            out,
            id,
            &ModulePart {
                kind: "Function",
                index: function.index(),
            },
            error.as_inner(),
            error.spans(),
            place,
        ),
        ModuleFault::EntryPoint(index, error) => write_fault(
            out,
            id,
            &ModulePart {
                kind: "EntryPoint",
                index: *index,
            },
            error.as_inner(),
            error.spans(),
            place,
        ),
        ModuleFault::Memory => out.string("memory"),
    }
}

/// Where reading stopped, as a pointer, and what was expected there.
#[tactic(auto, unfolding(crate::specs::VerdictJson::unreadable_at))]
fn write_unreadable_at(
    out: &mut JsonWriter,
    id: &Option<Id>,
    pointer: &str,
    expected: &str,
) -> Result<(), AllocError>
    ensures { Writes result out.old out.new (maybe_with_id id.now (unreadable_at pointer.now expected.now)) }
{
    open_named(out, id, "unreadable")?;
    two_fields(out, &("pointer", "expected"), &pointer, &expected)?;
    out.end_object()
}

/// Where reading stopped, and what was expected there.
fn write_unreadable(
    alloc: Global,
    out: &mut JsonWriter,
    id: &Option<Id>,
    unreadable: &Unreadable,
) -> Result<(), AllocError>
    ensures { Writes result out.old out.new (maybe_with_id id.now (unreadable_form unreadable.now)) }
{
    let pointer = pointer_text(alloc, unreadable.steps.as_slice())?;
    write_unreadable_at(out, id, pointer.as_str(), unreadable.expected.as_str())
}
