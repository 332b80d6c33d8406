//! The texts of refusals, and that refusals pass into `anyhow`.

use crate::tests::bench::{Bench, drop_bench, make_bench};
use crate::tests::judged::{layer, text_of, validator_over};
use crate::tests::parts::{HERE, expect_text, made};
use crate::tests::rows::{MISLED, function};
use naga_below::{
    Function, FunctionInfo, Handle, Refusal, Span, WithSpan, fits_function, fits_types,
};
use naga_module::{ModuleFault, Subject, write_fault, write_module_fault};
use naga_rules::{Explain, FunctionError, GlobalVariableError};
use naga_valid::EntryPointError;
use std::process::Abort;

/// The refusal of a function with this handle has this text.
fn assert_told(
    rt: &(impl Abort + AllocGlobal),
    function: u32,
    refusal: &Refusal<FunctionError>,
    expected: &str,
) {
    let told = text_of(rt, Subject::Function(Handle::new(function)), refusal);
    expect_text(rt, told.as_str(), expected);
    drop(told);
}

/// A refusal without a place, one with two, and out of memory.
fn placed(rt: &(impl Abort + AllocGlobal), index: usize) -> Refusal<FunctionError> {
    let fault = WithSpan::new(rt.alloc(), FunctionError::MissingDefaultCase);
    match index {
        0 => Refusal::Fault(fault),
        1 => {
            let fault = made(rt, fault.with_span(Span { start: 3, end: 5 }));
            Refusal::Fault(made(rt, fault.with_span(Span { start: 7, end: 9 })))
        }
        _ => Refusal::Memory,
    }
}

/// What is reported of them in function 0.
static PLACED: [&str; 3] = [
    "function [0]: MissingDefaultCase: a switch has no default case",
    "function [0]: 3..5, 7..9: MissingDefaultCase: a switch has no default case",
    "function [0]: Memory: out of memory",
];

#[test]
fn places_stand_before_the_fault(rt: HostRuntime) {
    for (index, expected) in PLACED.iter().enumerate() {
        let refusal = placed(&rt, index);
        assert_told(&rt, 0, &refusal, expected);
        drop(refusal);
    }
}

/// A fault of a subject at these spans has this text.
fn assert_fault_told<E: Explain>(
    rt: &(impl Abort + AllocGlobal),
    subject: Subject,
    places: &[Span],
    fault: &E,
    expected: &str,
) {
    let mut told = String::new(rt.alloc());
    made(rt, write_fault(&mut told, subject, places, fault));
    expect_text(rt, told.as_str(), expected);
    drop(told);
}

#[test]
fn subjects_are_told(rt: HostRuntime) {
    assert_fault_told(
        &rt,
        Subject::GlobalVariable(Handle::new(1)),
        &[],
        &GlobalVariableError::InvalidBinding,
        "global [1]: InvalidBinding: a global must have a binding exactly if it is in `Storage`, `Uniform` or `Handle`",
    );
    assert_fault_told(
        &rt,
        Subject::EntryPoint(3),
        &[HERE],
        &FunctionError::InvalidPayloadType,
        "entry point 3: 3..7: InvalidPayloadType: the payload of a ray is not a pointer",
    );
}

/// Judges a function, as a program does that only passes errors on.
fn judged(
    rt: &(impl Abort + AllocGlobal),
    fun: &Function,
    bench: &Bench,
) -> anyhow::Result<FunctionInfo> {
    let Bench { module, infos } = bench;
    let mut validator = validator_over(rt, layer());
    holds!(rt; validator.has_types_of(module));
    holds!(rt; fits_types(module));
    holds!(rt; fits_function(fun, module, infos.functions.len()));
    let info = validator.validate_function(rt.alloc(), fun, module, infos, false)?;
    Ok(info)
}

/// What the error says that such a program ends with.
fn passed_text(rt: &(impl Abort + AllocGlobal), fun: &Function, bench: &Bench) -> String {
    match judged(rt, fun, bench) {
        Ok(_) => panic!(rt; "accepted"),
        Err(error) => made(rt, error.to_string(rt.alloc())),
    }
}

/// Such a program ends with this error. Where memory is refused, the function is judged again.
fn expect_passed(rt: &(impl Abort + AllocGlobal), fun: &Function, bench: &Bench, expected: &str) {
    let text = passed_text(rt, fun, bench);
    if text.as_str() == "Memory" {
        let again = passed_text(rt, fun, bench);
        expect_text(rt, again.as_str(), expected);
    } else {
        expect_text(rt, text.as_str(), expected);
    }
}

#[test]
fn refusals_pass_into_anyhow(rt: HostRuntime) {
    let bench = make_bench(&rt);
    let fun = function(&rt, &MISLED);
    expect_passed(&rt, &fun, &bench, "InvalidRayDescriptor");
    drop(fun);
    drop_bench(bench);
}

/// Passes a fault with its places on.
fn passed_on(fault: WithSpan<GlobalVariableError>) -> anyhow::Result<()> {
    let answer: Result<(), WithSpan<GlobalVariableError>> = Err(fault);
    answer?;
    Ok(())
}

#[test]
fn faults_pass_into_anyhow(rt: HostRuntime) {
    let fault = WithSpan::new(rt.alloc(), GlobalVariableError::InvalidBinding);
    match passed_on(fault) {
        Ok(()) => panic!(rt; "no error"),
        Err(error) => {
            let text = made(&rt, error.to_string(rt.alloc()));
            expect_text(&rt, text.as_str(), "InvalidBinding");
        }
    }
}

/// The fault of a module prints as its name.
fn expect_name(rt: &(impl Abort + AllocGlobal), fault: &ModuleFault, name: &str) {
    let printed = made(rt, fault.to_string(rt.alloc()));
    expect_text(rt, printed.as_str(), name);
    drop(printed);
}

/// The fault of a module has this text.
fn assert_module_told(rt: &(impl Abort + AllocGlobal), fault: &ModuleFault, expected: &str) {
    let mut told = String::new(rt.alloc());
    made(rt, write_module_fault(&mut told, fault));
    expect_text(rt, told.as_str(), expected);
    drop(told);
}

/// Name and text of each fault of a module, in the order of `module_fault_at`.
static MODULE_FAULTS: [(&str, &str); 5] = [
    (
        "NotFit",
        "NotFit: a handle or a range is out of bounds or out of order, a fact is missing, or a global is where none may be",
    ),
    (
        "Global",
        "global [1]: InvalidBinding: a global must have a binding exactly if it is in `Storage`, `Uniform` or `Handle`",
    ),
    (
        "Function",
        "function [2]: 3..7: InvalidPayloadType: the payload of a ray is not a pointer",
    ),
    (
        "EntryPoint",
        "entry point 0: ExpectedTaskPayload: a task entry point has no task payload",
    ),
    ("Memory", "Memory: out of memory"),
];

/// The fault of a module at this place; that of the function is at `HERE`.
fn module_fault_at(rt: &(impl Abort + AllocGlobal), index: usize) -> ModuleFault {
    match index {
        0 => ModuleFault::NotFit,
        1 => ModuleFault::Global(Handle::new(1), GlobalVariableError::InvalidBinding),
        2 => {
            let fault = WithSpan::new(rt.alloc(), FunctionError::InvalidPayloadType);
            ModuleFault::Function(Handle::new(2), made(rt, fault.with_span(HERE)))
        },
        3 => {
            let error = EntryPointError::ExpectedTaskPayload;
            ModuleFault::EntryPoint(0, WithSpan::new(rt.alloc(), error))
        },
        _ => ModuleFault::Memory,
    }
}

#[test]
fn faults_of_modules_are_told(rt: HostRuntime) {
    for (index, (name, expected)) in MODULE_FAULTS.iter().enumerate() {
        let fault = module_fault_at(&rt, index);
        expect_name(&rt, &fault, name);
        assert_module_told(&rt, &fault, expected);
        drop(fault);
    }
}
