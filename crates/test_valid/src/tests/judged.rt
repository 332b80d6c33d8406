//! What is answered of a row over a lower layer, by a validator and by `check_module`.

use crate::tests::bench::{Bench, infos_of_types, module, triangles};
use crate::tests::parts::{SETTINGS, expect_text, known, made};
use crate::tests::rows::{Row, entry_point, function};
use naga_below::{
    EntryPoint, Function, FunctionInfo, Handle, Module, ModuleInfo, Refusal, Sequence, fits_entry,
    fits_function, fits_types,
};
use naga_layers::Plain;
use naga_module::{Given, ModuleFault, Subject, check_module, write_module_fault, write_refusal};
use naga_rules::{Below, Explain, MeshAnalysis};
use naga_valid::{TraceState, Validator};
use std::process::Abort;

/// Accepted, out of memory, or refused with what is reported of it.
#[derive(Drop)]
pub(crate) enum Answer {
    Accepted,
    Memory,
    Told(String),
}

/// The plain layer, by which triangles are put out, and no override is a largest value.
pub(crate) fn layer() -> Plain {
    Plain::new(MeshAnalysis {
        implied: triangles(),
        overrides: [None, None],
        fault: None,
    })
}

/// A validator of the module of `bench` over a lower layer.
pub(crate) fn validator_over<B: Below + Drop>(
    rt: &(impl Abort + AllocGlobal),
    below: B,
) -> Validator<B> {
    let infos = infos_of_types(rt, known());
    let mut validator = Validator::new(below, SETTINGS.flags, SETTINGS.capabilities).with_types(
        infos,
    );
    validator.subgroup_stages(SETTINGS.subgroup_stages);
    validator.subgroup_operations(SETTINGS.subgroup_operations);
    validator
}

/// The text of a refusal.
pub(crate) fn text_of<E: Explain>(
    rt: &(impl Abort + AllocGlobal),
    subject: Subject,
    refusal: &Refusal<E>,
) -> String {
    let mut told = String::new(rt.alloc());
    made(rt, write_refusal(&mut told, subject, refusal));
    told
}

fn answer_of<E: Explain + Drop>(
    rt: &(impl Abort + AllocGlobal),
    subject: Subject,
    answer: Result<FunctionInfo, Refusal<E>>,
) -> Answer {
    match answer {
        Ok(_) => Answer::Accepted,
        Err(Refusal::Memory) => Answer::Memory,
        Err(refusal) => Answer::Told(text_of(rt, subject, &refusal)),
    }
}

/// What is answered of a function after those of the module.
fn ask_alone<B: Below>(
    rt: &(impl Abort + AllocGlobal),
    validator: &mut Validator<B>,
    bench: &Bench,
    fun: &Function,
) -> Answer {
    let Bench { module, infos } = bench;
    holds!(rt; validator.has_types_of(module));
    holds!(rt; fits_types(module));
    holds!(rt; fits_function(fun, module, infos.functions.len()));
    let answer = validator.validate_function(rt.alloc(), fun, module, infos, false);
    answer_of(rt, Subject::Function(Handle::new(2)), answer)
}

/// What is answered of an entry point.
fn ask_entry<B: Below>(
    rt: &(impl Abort + AllocGlobal),
    validator: &mut Validator<B>,
    bench: &Bench,
    ep: &EntryPoint,
) -> Answer {
    let Bench { module, infos } = bench;
    holds!(rt; validator.has_types_of(module));
    holds!(rt; validator.has_payload_sizes(module));
    holds!(rt; fits_types(module));
    holds!(rt; fits_entry(ep, module));
    holds!(rt; fits_function(&ep.function, module, infos.functions.len()));
    let answer = validator.validate_entry_point(rt.alloc(), ep, module, infos);
    answer_of(rt, Subject::EntryPoint(0), answer)
}

/// What is answered of a row.
fn ask<B: Below>(
    rt: &(impl Abort + AllocGlobal),
    validator: &mut Validator<B>,
    bench: &Bench,
    row: &Row,
) -> Answer {
    if row.is_alone {
        let fun = function(rt, row);
        let answer = ask_alone(rt, validator, bench, &fun);
        drop(fun);
        answer
    } else {
        let ep = entry_point(rt, row);
        let answer = ask_entry(rt, validator, bench, &ep);
        drop(ep);
        answer
    }
}

/// An answer is the row's own.
fn expect(rt: &impl Abort, row: &Row, answer: &Answer) {
    match answer {
        Answer::Accepted => holds!(rt; row.told.is_empty()),
        Answer::Memory => panic!(rt; "refused twice"),
        Answer::Told(text) => expect_text(rt, text.as_str(), row.told),
    }
}

/// A validator gives a row its own answer, and this is what ray traces leave it then. Where memory is refused it stays as it
/// was, and is asked again. Whether it was.
pub(crate) fn expect_own<B: Below>(
    rt: &(impl Abort + AllocGlobal),
    validator: &mut Validator<B>,
    bench: &Bench,
    row: &Row,
    left: TraceState,
) -> bool {
    let before = validator.trace_state();
    let first = ask(rt, validator, bench, row);
    let is_refused = matches!(first, Answer::Memory);
    if is_refused {
        holds!(rt; validator.trace_state() == before);
        let again = ask(rt, validator, bench, row);
        expect(rt, row, &again);
        drop(again);
    } else {
        expect(rt, row, &first);
    }
    drop(first);
    holds!(rt; validator.trace_state() == left);
    is_refused
}

/// What is reported of what `check_module` answers.
fn told_of(rt: &(impl Abort + AllocGlobal), answer: &Result<ModuleInfo, ModuleFault>) -> Answer {
    match answer {
        Ok(_) => Answer::Accepted,
        Err(ModuleFault::Memory) => Answer::Memory,
        Err(fault) => {
            let mut told = String::new(rt.alloc());
            made(rt, write_module_fault(&mut told, fault));
            Answer::Told(told)
        }
    }
}

/// What `check_module` answers of a module of these types.
pub(crate) fn ask_module<B: Below + Drop>(
    rt: &(impl Abort + AllocGlobal),
    below: B,
    module: &Module,
) -> Answer {
    let given = Given {
        types: infos_of_types(rt, known()),
        global_types: Vec::new(rt.alloc()),
    };
    let answer = check_module(rt.alloc(), below, SETTINGS, given, module);
    let told = told_of(rt, &answer);
    drop(answer);
    told
}

/// The module of `bench` with the entry point of a row.
pub(crate) fn module_of(rt: &(impl Abort + AllocGlobal), row: &Row) -> Module {
    let mut entry_points = Sequence::new(rt.alloc());
    made(rt, entry_points.push(entry_point(rt, row)));
    module(rt, entry_points)
}

/// The module with the entry point of a row has this row's own answer, or is answered out of memory: whether that is so.
pub(crate) fn module_falters<B: Below + Drop>(
    rt: &(impl Abort + AllocGlobal),
    below: B,
    module: &Module,
    row: &Row,
) -> bool {
    let answer = ask_module(rt, below, module);
    let is_refused = matches!(answer, Answer::Memory);
    if !is_refused {
        expect(rt, row, &answer);
    }
    drop(answer);
    is_refused
}
