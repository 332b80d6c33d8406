//! Errors and their places.

use crate::tests::made;
use ir_arena::{Refusal, Span, WithSpan};
use ir_errors::ExpressionError;
use std::alloc::AllocError;
use std::process::Abort;

const FAULT: ExpressionError = ExpressionError::NotInScope;

const FIRST: Span = Span { start: 1, end: 2 };

const SECOND: Span = Span { start: 7, end: 9 };

/// A fault with two places.
fn placed(rt: &(impl Abort + AllocGlobal)) -> WithSpan<ExpressionError> {
    let fault = made(rt, WithSpan::new(rt.alloc(), FAULT).with_span(FIRST));
    made(rt, fault.with_span(SECOND))
}

/// The first has the two places, the second has none, and they are equal.
fn expect_places(
    rt: &impl Abort,
    placed: &WithSpan<ExpressionError>,
    bare: &WithSpan<ExpressionError>,
) {
    holds!(rt; placed.spans() == [FIRST, SECOND].as_slice());
    holds!(rt; *placed.as_inner() == FAULT);
    holds!(rt; bare.spans().is_empty());
    holds!(rt; *placed == *bare);
}

/// A fault keeps the places that it is given, which `==` doesn't compare.
#[test]
fn errors_are_placed(rt: HostRuntime) {
    let placed = placed(&rt);
    let bare = WithSpan::new(rt.alloc(), FAULT);
    expect_places(&rt, &placed, &bare);
    holds!(&rt; placed.into_inner() == FAULT);
    let refusals = [Refusal::Fault(bare), Refusal::from(AllocError)];
    holds!(&rt; refusals[0] != refusals[1]);
    drop(refusals);
}
