//! The check list of Switch.

ghost use Rattle.std.specs.Prelude.{◌≡◌, [], None, true, IsTrue};
ghost use Rattle.std.specs.List.{list_any};
ghost use Rattle.ir_arena.specs.Points.{first_fault};
ghost use Rattle.ir_statements.specs.declared.statements.SwitchCase.{out-SwitchCase};
ghost use Rattle.check_scope.specs.BodyTrees.{case_list};
ghost use Rattle.check_flow.specs.Switch.{has_signedness_of, is_default, repeated_fault, value_points, values_of, last_falls_through, switch_points};
ghost use Rattle.ir_facts.specs.Answers.{Answers, Finds, FirstOf};
ghost use Rattle.check_scope.specs.walk.Place.{place_at};
ghost use Rattle.check_scope.specs.walk.SeenContext.{context_of};
ghost use Rattle.check_flow.specs.walk.SwitchParts.{selector_points, cases_points, risen, risen_to};
ghost use Rattle.check_scope.specs.walk.Table.{known};

use crate::value_set::ValueSet;
use check_scope::context::BlockContext;
use check_scope::refuse::{answer, check_use};
use check_scope::table::ScopeColumn;
use check_scope::types::is_integer_kind;
use ir_arena::handle::Handle;
use ir_arena::span::Span;
use ir_arena::{Refused, tag};
use ir_errors::function::FunctionError;
use ir_leaves::scalars::ScalarKind;
use ir_statements::operations::SwitchValue;
use ir_statements::statements::SwitchCase;
use std::alloc::Global;

/// Switch: its selector, each case value, and the cases as a whole.
#[inline(never)]
pub fn check_switch(
    scope: &ScopeColumn,
    context: &BlockContext,
    selector: Handle<tag::Expression>,
    cases: &[SwitchCase],
    span: Span,
) -> Result<(), Refused<FunctionError>>
    ensures { Answers (FirstOf (switch_points (context_of context.now) (place_at (known scope.now)) selector
        (case_list cases.now))) result }
{
    let alloc = scope.allocator();
    answer(alloc, check_selector(scope, context, selector), span)?;
    check_values(alloc, context.scalar_kind(selector), cases, span)?;
    answer(alloc, check_cases(cases), span)
}

fn check_selector(
    scope: &ScopeColumn,
    context: &BlockContext,
    selector: Handle<tag::Expression>,
) -> Result<(), FunctionError>
    ensures { Finds (FirstOf (selector_points (context_of context.now) (place_at (known scope.now)) selector)) result }
{
    check_use(scope, selector)?;
    if !is_integer_kind(context.scalar_kind(selector)) {
        return Err(FunctionError::InvalidSwitchType(selector));
    }
    Ok(())
}

/// The case values in order: of the selector's signedness, and not that of an earlier case.
fn check_values(
    alloc: Global,
    selector: Option<ScalarKind>,
    cases: &[SwitchCase],
    span: Span,
) -> Result<(), Refused<FunctionError>>
    ensures { Answers (FirstOf (value_points selector [] (values_of (case_list cases.now)))) result }
{
    if are_rising(selector, cases) {
        return Ok(());
    }
    check_each_value(alloc, selector, cases, span)
}

/// What the values so far have shown where their numbers rise: the last of these, and whether there was a default.
#[derive(Clone, Copy)]
pub(crate) struct Rising {
    last: i64,
    has_default: bool,
}

/// Whether all values have the selector's signedness, their numbers rise, and there is one default at most: then no
/// value stands twice. Cases are mostly written so, and need no set.
fn are_rising(selector: Option<ScalarKind>, cases: &[SwitchCase]) -> bool
    ensures { IsTrue result → first_fault (value_points selector [] (values_of (case_list cases.now))) ≡ None }
{
    let mut so_far = Rising {
        last: i64::MIN,
        has_default: false,
    };
    for case in cases {
        if !has_signedness_of(selector, case.value) {
            return false;
        }
        let Some(next) = risen(so_far, case.value) else {
            return false;
        };
        so_far = next;
    }
    true
}

/// What is known after a value, if its number is above those before it, or it is the first default.
fn risen(so_far: Rising, value: SwitchValue) -> Option<Rising>
    ensures { result ≡ risen so_far value }
{
    match value {
        SwitchValue::I32(number) => risen_to(so_far, i64::from(number)),
        SwitchValue::U32(number) => risen_to(so_far, i64::from(number)),
        SwitchValue::Default => {
            if so_far.has_default {
                return None;
            }
            Some(Rising {
                last: so_far.last,
                has_default: true,
            })
        }
    }
}

fn risen_to(so_far: Rising, number: i64) -> Option<Rising>
    ensures { result ≡ risen_to so_far number }
{
    if number <= so_far.last {
        return None;
    }
    Some(Rising {
        last: number,
        has_default: so_far.has_default,
    })
}

/// The case values in order, those of the earlier cases kept in a set.
fn check_each_value(
    alloc: Global,
    selector: Option<ScalarKind>,
    cases: &[SwitchCase],
    span: Span,
) -> Result<(), Refused<FunctionError>>
    ensures { Answers (FirstOf (value_points selector [] (values_of (case_list cases.now)))) result }
{
    let mut earlier = ValueSet::new(alloc, cases.len())?;
    for case in cases {
        if !has_signedness_of(selector, case.value) {
            return Err(Refused::placed(alloc, FunctionError::ConflictingCaseType, span));
        }
        let is_new = earlier.insert(case.value)?;
        if !is_new {
            return Err(Refused::placed(alloc, repeated_fault(case.value), span));
        }
    }
    Ok(())
}

fn has_signedness_of(selector: Option<ScalarKind>, value: SwitchValue) -> bool
    ensures { result ≡ has_signedness_of selector value }
{
    match (selector, value) {
        (_, SwitchValue::Default) => true,
        (Some(ScalarKind::Sint), SwitchValue::I32(_)) => true,
        (Some(ScalarKind::Uint), SwitchValue::U32(_)) => true,
        _ => false,
    }
}

fn repeated_fault(value: SwitchValue) -> FunctionError
    ensures { result ≡ repeated_fault value }
{
    match value {
        SwitchValue::Default => FunctionError::MultipleDefaultCases,
        _ => FunctionError::ConflictingSwitchCase(value),
    }
}

/// The cases as a whole: a default among them, and no fall through of the last.
#[tactic(auto, using(crate::proofs::Lists::any_value))]
fn check_cases(cases: &[SwitchCase]) -> Result<(), FunctionError>
    ensures { Finds (FirstOf (cases_points (case_list cases.now))) result }
{
    if !has_default(cases) {
        return Err(FunctionError::MissingDefaultCase);
    }
    if last_falls_through(cases) {
        return Err(FunctionError::LastCaseFallTrough);
    }
    Ok(())
}

fn has_default(cases: &[SwitchCase]) -> bool
    ensures { result ≡ list_any (λ case. is_default (out-SwitchCase case).value) cases.now }
{
    // (it mostly stands last)
    if ends_in_default(cases) {
        return true;
    }
    cases.iter().any(|case| is_default(case.value))
}

/// Whether the last case is the default.
fn ends_in_default(cases: &[SwitchCase]) -> bool
    ensures { IsTrue result → list_any (λ case. is_default (out-SwitchCase case).value) cases.now ≡ true }
{
    match cases.last() {
        Some(case) => is_default(case.value),
        None => false,
    }
}

/// Whether a value is the default.
pub(crate) fn is_default(value: SwitchValue) -> bool
    ensures { result ≡ is_default value }
{
    match value {
        SwitchValue::Default => true,
        _ => false,
    }
}

#[tactic(auto, using(crate::proofs::Lists::last_case))]
fn last_falls_through(cases: &[SwitchCase]) -> bool
    ensures { result ≡ last_falls_through (case_list cases.now) }
{
    match cases.last() {
        Some(case) => case.fall_through,
        None => false,
    }
}
