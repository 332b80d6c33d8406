//! The check lists of If, Return, Break and Continue, and of a break condition.

ghost use Rattle.std.specs.Prelude.{◌≡◌, ◌↔◌, IsTrue};
ghost use Rattle.std.specs.Option.{option_copied};
ghost use Rattle.check_flow.specs.Control.{is_bool_scalar, condition_points, declared_type, is_returned_as, return_points, break_points, continue_points};
ghost use Rattle.check_scope.specs.walk.Place.{no_sets, place_at};
ghost use Rattle.check_flow.specs.walk.Emitted.{place};
ghost use Rattle.ir_errors.specs.declared.function.FunctionError.TheVariants.{BreakOutsideOfLoopOrSwitch, ContinueOutsideOfLoop, InvalidReturnType};
ghost use Rattle.ir_arena.specs.Refusals.{IsRefusalFor};
ghost use Rattle.check_scope.specs.walk.Findings.{AllHold, RefusesFaultsAlone};
ghost use Rattle.ir_facts.specs.Answers.{Answers, FirstOf, IsFirstFault};
ghost use Rattle.check_scope.specs.Context.{ContextFits};
ghost use Rattle.check_scope.specs.walk.SeenContext.{context_of};
ghost use Rattle.check_scope.specs.walk.Table.{known};

use check_scope::context::BlockContext;
use check_scope::refuse::not_in_scope;
use check_scope::table::ScopeColumn;
use check_scope::types::is_of_type;
use ir_arena::handle::Handle;
use ir_arena::span::Span;
use ir_arena::{Refused, tag};
use ir_errors::function::FunctionError;
use ir_leaves::scalars::{Scalar, ScalarKind};
use ir_types::types::TypeInner;
use ir_types::typifier::TypeResolution;
use naga_runs::Abilities;
use std::alloc::Global;

/// If, and the break condition of a Loop: a boolean that every run has put.
pub fn check_condition(
    scope: &ScopeColumn,
    context: &BlockContext,
    condition: Handle<tag::Expression>,
    span: &Span,
) -> Result<(), Refused<FunctionError>>
    ensures fault { Answers (FirstOf (condition_points (context_of context.now) (place_at (known scope.now))
        condition)) result }
    ensures refused { RefusesFaultsAlone
        (condition_points (context_of context.now) (place_at (known scope.now)) condition) result }
{
    if condition_holds(scope, context, condition) {
        return Ok(());
    }
    Err(refused_condition(scope, context, condition, span))
}

/// Whether no point of a condition fails.
fn condition_holds(
    scope: &ScopeColumn,
    context: &BlockContext,
    condition: Handle<tag::Expression>,
) -> bool
    ensures { IsTrue result ↔ AllHold (condition_points (context_of context.now) (place_at (known scope.now)) condition) }
{
    scope.may_use(condition) && is_bool_scalar(context.type_inner(condition))
}

/// The refusal of a condition of which a point fails.
#[cold]
#[inline(never)]
fn refused_condition(
    scope: &ScopeColumn,
    context: &BlockContext,
    condition: Handle<tag::Expression>,
    span: &Span,
) -> Refused<FunctionError>
    requires fails { AllHold (condition_points (context_of context.now) (place_at (known scope.now)) condition) → ⊥ }
    ensures { IsFirstFault (condition_points (context_of context.now) (place_at (known scope.now)) condition) result }
{
    match first_fault_of_condition(scope, context, condition, span) {
        Err(refused) => refused,
        Ok(()) => unreachable!(),
    }
}

/// The list of a condition, with the fault of each point.
fn first_fault_of_condition(
    scope: &ScopeColumn,
    context: &BlockContext,
    condition: Handle<tag::Expression>,
    span: &Span,
) -> Result<(), Refused<FunctionError>>
    ensures fault { Answers (FirstOf (condition_points (context_of context.now) (place_at (known scope.now))
        condition)) result }
    ensures refused { RefusesFaultsAlone
        (condition_points (context_of context.now) (place_at (known scope.now)) condition) result }
{
    if !scope.may_use(condition) {
        return Err(not_in_scope(scope.allocator(), condition, *span));
    }
    if !is_bool_scalar(context.type_inner(condition)) {
        let fault = FunctionError::InvalidIfType(condition);
        return Err(Refused::placed(scope.allocator(), fault, *span));
    }
    Ok(())
}

fn is_bool_scalar(inner: Option<&TypeInner>) -> bool
    ensures { result ≡ is_bool_scalar (option_copied inner.entry) }
{
    matches!(
        inner,
        Some(TypeInner::Scalar(Scalar {
            kind: ScalarKind::Bool,
            ..
        },),)
    )
}

/// Return: allowed here, and its value put by every run and of the function's result type.
pub fn check_return(
    scope: &ScopeColumn,
    context: &BlockContext,
    abilities: Abilities,
    value: &Option<Handle<tag::Expression>>,
    span: Span,
) -> Result<(), Refused<FunctionError>>
    requires { ContextFits (context_of context.now) }
    ensures fault { Answers (FirstOf (return_points (context_of context.now) (place abilities (known scope.now))
        value.now)) result }
    ensures refused { RefusesFaultsAlone
        (return_points (context_of context.now) (place abilities (known scope.now)) value.now) result }
{
    let alloc = scope.allocator();
    if !abilities.can_return {
        let fault = FunctionError::InvalidReturnSpot;
        return Err(Refused::placed(alloc, fault, span));
    }
    match value {
        Some(handle) => {
            if !scope.may_use(*handle) {
                return Err(not_in_scope(alloc, *handle, span));
            }
            if !is_returned_as(context, *handle, declared_type(context)) {
                return Err(invalid_return_type(alloc, context, value, span));
            }
            Ok(())
        }
        None => {
            if declared_type(context).is_some() {
                return Err(invalid_return_type(alloc, context, value, span));
            }
            Ok(())
        }
    }
}

/// The type that the function's result is declared with.
fn declared_type(context: &BlockContext) -> Option<Handle<tag::Type>>
    ensures { result ≡ declared_type (context_of context.now) }
{
    match context.fun.result {
        Some(declared) => Some(declared.ty),
        None => None,
    }
}

/// Whether an expression is of the type that the function's result is declared with.
fn is_returned_as(
    context: &BlockContext,
    value: Handle<tag::Expression>,
    declared: Option<Handle<tag::Type>>,
) -> bool
    requires fits { ContextFits (context_of context.now) }
    requires declared { declared ≡ declared_type (context_of context.now) }
    ensures { result ≡ is_returned_as (context_of context.now) value declared }
{
    match declared {
        None => false,
        Some(declared) => is_of_type(context, value, &TypeResolution::Handle(declared)),
    }
}

/// Break: allowed here.
pub fn check_break(
    alloc: Global,
    abilities: Abilities,
    span: Span,
) -> Result<(), Refused<FunctionError>>
    ensures fault { Answers (FirstOf (break_points (place abilities no_sets))) result }
    ensures refused { RefusesFaultsAlone (break_points (place abilities no_sets)) result }
{
    if !abilities.can_break {
        return Err(break_outside_of_loop_or_switch(alloc, span));
    }
    Ok(())
}

/// Continue: allowed here.
pub fn check_continue(
    alloc: Global,
    abilities: Abilities,
    span: Span,
) -> Result<(), Refused<FunctionError>>
    ensures fault { Answers (FirstOf (continue_points (place abilities no_sets))) result }
    ensures refused { RefusesFaultsAlone (continue_points (place abilities no_sets)) result }
{
    if !abilities.can_continue {
        return Err(continue_outside_of_loop(alloc, span));
    }
    Ok(())
}

/// The refusal of a Break that is in no body of a Loop and in no case.
#[cold]
#[inline(never)]
fn break_outside_of_loop_or_switch(alloc: Global, span: Span) -> Refused<FunctionError>
    ensures { IsRefusalFor BreakOutsideOfLoopOrSwitch result }
{
    Refused::placed(alloc, FunctionError::BreakOutsideOfLoopOrSwitch, span)
}

/// The refusal of a Continue that is in no body of a Loop.
#[cold]
#[inline(never)]
fn continue_outside_of_loop(alloc: Global, span: Span) -> Refused<FunctionError>
    ensures { IsRefusalFor ContinueOutsideOfLoop result }
{
    Refused::placed(alloc, FunctionError::ContinueOutsideOfLoop, span)
}

/// The refusal of a Return of another type than is declared, or of a value where none is declared, or of none where
/// one is.
fn invalid_return_type(
    alloc: Global,
    context: &BlockContext,
    value: &Option<Handle<tag::Expression>>,
    span: Span,
) -> Refused<FunctionError>
    ensures { IsRefusalFor (InvalidReturnType value.now (declared_type (context_of context.now))) result }
{
    let fault = FunctionError::InvalidReturnType {
        expression: *value,
        expected_ty: declared_type(context),
    };
    Refused::placed(alloc, fault, span)
}
