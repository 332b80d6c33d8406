//! What errors and handles print.

use crate::tests::{expect_said, made};
use bitflags::Flags;
use ir_arena::{Handle, Refusal, Span, WithSpan, tag};
use ir_errors::ExpressionError;
use ir_flags::{Capabilities, ShaderStages};
use ir_leaves::Name;
use ir_statements::Operands;
use std::fmt::Debug;
use std::process::Abort;

fn assert_prints(rt: &(impl Abort + AllocGlobal), value: &impl Debug, text: &str) {
    let printed = made(rt, format!(in rt.alloc(); "{value:?}"));
    holds!(rt; printed.as_str() == text);
}

#[test]
fn handles_print_in_brackets(rt: HostRuntime) {
    let handle: Handle<tag::Type> = Handle::new(6);
    assert_prints(&rt, &handle, "[6]");
    let error = ExpressionError::ExpectedImageType(Handle::new(4294967295));
    assert_prints(&rt, &error, "ExpectedImageType([4294967295])");
}

#[test]
fn sets_print_their_names(rt: HostRuntime) {
    let stages = ShaderStages(ShaderStages::FRAGMENT.0 | ShaderStages::TASK.0);
    assert_prints(&rt, &stages, "ShaderStages(FRAGMENT | TASK)");
    assert_prints(&rt, &Capabilities::empty(), "Capabilities(0x0)");
    assert_prints(&rt, &ShaderStages(0x401), "ShaderStages(VERTEX | 0x400)");
}

#[test]
fn lists_and_names_print_as_such(rt: HostRuntime) {
    let mut operands = Operands::new(rt.alloc());
    made(&rt, operands.push(Handle::new(1)));
    made(&rt, operands.push(Handle::new(2)));
    assert_prints(&rt, &operands, "[[1], [2]]");
    let name = Name::from(made(&rt, String::from_str(rt.alloc(), "color")));
    assert_prints(&rt, &name, "\"color\"");
}

#[test]
fn refusals_are_errors(rt: HostRuntime) {
    let fault = WithSpan::new(rt.alloc(), ExpressionError::NotInScope);
    let fault = made(&rt, fault.with_span(Span { start: 3, end: 5 }));
    expect_said(&rt, fault, "NotInScope");
    let fault = WithSpan::new(rt.alloc(), ExpressionError::Lower(4));
    expect_said(&rt, Refusal::Fault(fault), "Lower");
    expect_said(&rt, Refusal::<ExpressionError>::Memory, "Memory");
}
