//! Verdicts as text for a person.

use crate::named::write_id;
use crate::untyped::tell_untyped;
use crate::verdict::{Examined, Verdict};
use check_faults::{ModuleFault, Whereabouts, write_module_fault_lines};
use ir_misfits::Misfit;
use json_document::Unreadable;
use json_faults::sets::write_names;
use json_places::{Found, Reason, Spot};
use naga_below::{FunctionInfo, Module, ModuleInfo, ShaderStage};
use std::alloc::Global;
use std::fmt;

/// Writes the verdict of a judged text for a person, after the id of its document.
///
/// It does so as [`write_lines`] does, with the place of the fault; of an expression without a type why it has none; of
/// `NotFit` what doesn't fit, and of facts that are short or break a law which these are.
///
/// An Err is that of the writer, or out of memory.
pub fn write_examined<W: fmt::Write>(
    alloc: Global,
    out: &mut W,
    examined: &Examined,
) -> fmt::Result {
    write_id(out, &examined.id, &examined.verdict)?;
    let fault = match &examined.verdict {
        Verdict::Refused(fault) if !matches!(fault, ModuleFault::Memory) => fault,
        verdict => return write_lines(out, verdict),
    };
    out.write_str("refused\n")?;
    match examined.found() {
        Some(found) => tell_found(alloc, out, fault, &examined.misfit, found)?,
        None => tell_fault(out, fault, &examined.misfit, Whereabouts::UNKNOWN)?,
    }
    match &examined.refused {
        Some(refused) => tell_untyped(alloc, out, fault, refused),
        None => Ok(()),
    }
}

/// A fault that was found.
fn tell_found<W: fmt::Write>(
    alloc: Global,
    out: &mut W,
    fault: &ModuleFault,
    misfit: &Option<Misfit>,
    found: &Found,
) -> fmt::Result {
    let place = &found.place;
    let text = format!(in alloc; "{place}")?;
    let known = Whereabouts {
        place: Some(text.as_str()),
        is_skipped: matches!(found.reason, Some(Reason::Skipped { .. })),
    };
    tell_fault(out, fault, misfit, known)?;
    match found.spot {
        Spot::Facts(shortage) => write!(out, "\n  the facts can't be used: {shortage}"),
        _ => Ok(()),
    }
}

/// A fault with what is known of where it stands.
fn tell_fault<W: fmt::Write>(
    out: &mut W,
    fault: &ModuleFault,
    misfit: &Option<Misfit>,
    known: Whereabouts<'_>,
) -> fmt::Result {
    let Some(misfit) = misfit else {
        return write_module_fault_lines(out, fault, known);
    };
    out.write_str("NotFit\n  ")?;
    if let Some(place) = known.place {
        write!(out, "place: {place}\n  ")?;
    }
    write!(out, "{misfit}")
}

/// Writes the verdict for a person, on one or more lines, without a newline at the end. An Err is that of the writer.
pub fn write_lines<W: fmt::Write>(out: &mut W, verdict: &Verdict) -> fmt::Result {
    match verdict {
        Verdict::Accepted { module, infos } => tell_infos(out, module, infos),
        Verdict::Refused(fault) => tell_refused(out, fault),
        Verdict::Unreadable(unreadable) => tell_unreadable(out, unreadable),
    }
}

/// The stages that the body of each function and of each entry point could run in, after an entry point's own stage.
fn tell_infos<W: fmt::Write>(out: &mut W, module: &Module, infos: &ModuleInfo) -> fmt::Result {
    out.write_str("ok")?;
    for (index, function) in infos.functions.as_slice().iter().enumerate() {
        write!(out, "\nfunction {index}: accepted; its body could run in:")?;
        tell_stages(out, function)?;
    }
    let entry_points = module.entry_points.as_slice();
    for (index, entry) in infos.entry_points.as_slice().iter().enumerate() {
        write!(out, "\nentry point {index} (")?;
        if let Some(ep) = entry_points.get(index) {
            out.write_str(stage_name(ep.stage))?;
        }
        out.write_str("): accepted; its body could run in:")?;
        tell_stages(out, entry)?;
    }
    Ok(())
}

/// A stage, by the name that sets of stages have for it.
fn stage_name(stage: ShaderStage) -> &'static str {
    match stage {
        ShaderStage::Vertex => "VERTEX",
        ShaderStage::Fragment => "FRAGMENT",
        ShaderStage::Compute => "COMPUTE",
        ShaderStage::Mesh => "MESH",
        ShaderStage::Task => "TASK",
        ShaderStage::RayGeneration => "RAY_GENERATION",
        ShaderStage::AnyHit => "ANY_HIT",
        ShaderStage::ClosestHit => "CLOSEST_HIT",
        ShaderStage::Miss => "MISS",
    }
}

/// The names of the stages, with a space before each.
fn tell_stages<W: fmt::Write>(out: &mut W, info: &FunctionInfo) -> fmt::Result {
    write_names(out, &info.available_stages, " ", " ")
}

/// Where reading stopped, and what was expected there.
fn tell_unreadable<W: fmt::Write>(out: &mut W, unreadable: &Unreadable) -> fmt::Result {
    let expected = unreadable.expected.as_str();
    if unreadable.steps.is_empty() {
        write!(out, "unreadable: expected {expected}")
    } else {
        write!(out, "unreadable at {unreadable}: expected {expected}")
    }
}

/// What has the fault, the fault, its spans, and what it means; or out of memory.
fn tell_refused<W: fmt::Write>(out: &mut W, fault: &ModuleFault) -> fmt::Result {
    match fault {
        ModuleFault::Memory => out.write_str("memory"),
        fault => {
            out.write_str("refused\n")?;
            write_module_fault_lines(out, fault, Whereabouts::UNKNOWN)
        }
    }
}
