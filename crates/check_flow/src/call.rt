//! The check list of Call.

ghost use Rattle.std.specs.Prelude.{◌≡◌, ◌<◌, ◌↔◌, IsTrue, OnOk, IfSome, All, length};
ghost use Rattle.std.specs.Option.{option_copied};
ghost use Rattle.ir_facts.specs.FitsBody.{CalleeFits};
ghost use Rattle.ir_arena.specs.Points.{within};
ghost use Rattle.ir_statements.specs.View.{put_if};
ghost use Rattle.ir_errors.specs.declared.expression.ExpressionError.TheVariants.{NotInScope};
ghost use Rattle.ir_errors.specs.declared.function.CallError.TheVariants.{Argument, ArgumentCount, ArgumentType, ExpressionMismatch, ResultAlreadyInScope, ResultAlreadyPopulated};
ghost use Rattle.ir_errors.specs.declared.function.FunctionError.TheVariants.{InvalidCall};
ghost use Rattle.naga_runs.specs.PutsAndUses.{puts_of};
ghost use Rattle.ir_arena.specs.Refusals.{IsRefusalFor};
ghost use Rattle.check_scope.specs.walk.Findings.{AllHold, RefusesFaultsAlone};
ghost use Rattle.ir_facts.specs.Answers.{Answers, Finds, FirstOf, IsFirstFault};
ghost use Rattle.check_flow.specs.Call.{is_passed_as, passed_points, all_passed_points, is_call_result_of, call_result_points, call_points};
ghost use Rattle.check_scope.specs.Context.{ContextFits};
ghost use Rattle.check_scope.specs.walk.Place.{place_at};
ghost use Rattle.check_scope.specs.walk.SeenContext.{context_of};
ghost use Rattle.check_scope.specs.walk.Table.{HasPut, count, filled_in, known};

use check_scope::context::BlockContext;
use check_scope::results::is_fresh;
use check_scope::table::{FilledColumn, ScopeColumn};
use ir_arena::handle::Handle;
use ir_arena::span::Span;
use ir_arena::{Refused, tag};
use ir_errors::expression::ExpressionError;
use ir_errors::function::{CallError, FunctionError};
use ir_module::expressions::Expression;
use ir_module::functions::FunctionArgument;
use ir_types::type_methods::compare_types;
use ir_types::typifier::TypeResolution;
use std::alloc::Global;

/// What a Call calls, the result that it names, if it names one, and its place.
#[derive(Clone, Copy)]
pub struct CallSite<'a> {
    pub function: Handle<tag::Function>,
    pub named: Option<Handle<tag::Expression>>,
    pub span: &'a Span,
}

/// Call: its arguments and its result, which is in scope afterwards.
pub fn validate_call(
    scope: &mut ScopeColumn,
    filled: &FilledColumn,
    context: &BlockContext,
    site: &CallSite,
    arguments: &[Handle<tag::Expression>],
) -> Result<(), Refused<FunctionError>>
    requires context { ContextFits (context_of context.now) }
    requires callee { CalleeFits (context_of context.now).program site.now.function }
    requires result { IfSome site.now.named (λ r. r < count scope.old) }
    ensures fault { Answers (FirstOf (call_points (context_of context.now) (filled_in filled.now)
        (place_at (known scope.old)) site.now.function arguments.now site.now.named)) result }
    ensures refused { RefusesFaultsAlone
        (call_points (context_of context.now) (filled_in filled.now) (place_at (known scope.old)) site.now.function
        arguments.now site.now.named)
        result }
    ensures scope { OnOk result (HasPut scope.old scope.new (puts_of (put_if site.now.named))) }
{
    check_call(scope, filled, context, site, arguments)?;
    if let Some(handle) = &site.named {
        scope.put(*handle);
    }
    Ok(())
}

/// The arguments and the result of a call, which stays out of scope.
fn check_call(
    scope: &ScopeColumn,
    filled: &FilledColumn,
    context: &BlockContext,
    site: &CallSite,
    arguments: &[Handle<tag::Expression>],
) -> Result<(), Refused<FunctionError>>
    requires context { ContextFits (context_of context.now) }
    requires callee { CalleeFits (context_of context.now).program site.now.function }
    ensures fault { Answers (FirstOf (call_points (context_of context.now) (filled_in filled.now)
        (place_at (known scope.now)) site.now.function arguments.now site.now.named)) result }
    ensures refused { RefusesFaultsAlone
        (call_points (context_of context.now) (filled_in filled.now) (place_at (known scope.now)) site.now.function
        arguments.now site.now.named)
        result }
{
    if call_holds(scope, filled, context, site, arguments) {
        return Ok(());
    }
    let CallSite {
        function,
        named,
        span,
    } = *site;
    Err(refused_site(scope, filled, context, function, named, span, arguments))
}

/// Whether no point of a Call fails.
fn call_holds(
    scope: &ScopeColumn,
    filled: &FilledColumn,
    context: &BlockContext,
    site: &CallSite,
    arguments: &[Handle<tag::Expression>],
) -> bool
    requires context { ContextFits (context_of context.now) }
    requires callee { CalleeFits (context_of context.now).program site.now.function }
    ensures { IsTrue result ↔ AllHold
        (call_points (context_of context.now) (filled_in filled.now) (place_at (known scope.now)) site.now.function
        arguments.now site.now.named) }
{
    let callee = &context.program.functions[site.function];
    if !arguments_hold(scope, context, site, callee.arguments.as_slice(), arguments) {
        return false;
    }
    call_result_holds(scope, filled, context, site, callee.result.is_some())
}

/// Whether no point of the arguments of a Call fails.
fn arguments_hold(
    scope: &ScopeColumn,
    context: &BlockContext,
    site: &CallSite,
    declared: &[FunctionArgument],
    given: &[Handle<tag::Expression>],
) -> bool
    requires context { ContextFits (context_of context.now) }
    requires types { All (λ argument. argument.ty < length (context_of context.now).program.types) declared.now }
    ensures { IsTrue result ↔ AllHold
        (within (InvalidCall site.now.function)
        (all_passed_points (context_of context.now) (place_at (known scope.now)) declared.now given.now)) }
{
    if given.len() != declared.len() {
        return false;
    }
    for index in 0..given.len() {
        if !scope.may_use(given[index]) {
            return false;
        }
        if !is_passed_as(context, given[index], declared[index].ty) {
            return false;
        }
    }
    true
}

/// Whether no point of the result of a Call fails.
fn call_result_holds(
    scope: &ScopeColumn,
    filled: &FilledColumn,
    context: &BlockContext,
    site: &CallSite,
    returns: bool,
) -> bool
    ensures { IsTrue result ↔ AllHold
        (within (InvalidCall site.now.function) (call_result_points (context_of context.now) (filled_in filled.now)
        (place_at (known scope.now)) site.now.function returns site.now.named)) }
{
    match &site.named {
        Some(handle) => {
            !scope.contains(*handle)
                && is_call_result_of(site.function, context.expression(*handle))
                && returns
                && is_fresh(filled, context, *handle)
        }
        None => !returns,
    }
}

/// The refusal of a Call of which a point fails. The call site comes in its parts: lent, it would be laid into memory at each
/// Call, also where all points hold.
#[cold]
#[inline(never)]
fn refused_site(
    scope: &ScopeColumn,
    filled: &FilledColumn,
    context: &BlockContext,
    function: Handle<tag::Function>,
    named: Option<Handle<tag::Expression>>,
    span: &Span,
    arguments: &[Handle<tag::Expression>],
) -> Refused<FunctionError>
    requires context { ContextFits (context_of context.now) }
    requires callee { CalleeFits (context_of context.now).program function }
    requires fails { AllHold (call_points (context_of context.now) (filled_in filled.now) (place_at (known scope.now))
        function arguments.now named) → ⊥ }
    ensures { IsFirstFault (call_points (context_of context.now) (filled_in filled.now) (place_at (known scope.now))
        function arguments.now named) result }
{
    let site = CallSite {
        function,
        named,
        span,
    };
    match first_fault_of_call(scope, filled, context, &site, arguments) {
        Err(refused) => refused,
        Ok(()) => unreachable!(),
    }
}

/// The list of a Call, with the fault of each point.
fn first_fault_of_call(
    scope: &ScopeColumn,
    filled: &FilledColumn,
    context: &BlockContext,
    site: &CallSite,
    arguments: &[Handle<tag::Expression>],
) -> Result<(), Refused<FunctionError>>
    requires context { ContextFits (context_of context.now) }
    requires callee { CalleeFits (context_of context.now).program site.now.function }
    ensures fault { Answers (FirstOf (call_points (context_of context.now) (filled_in filled.now)
        (place_at (known scope.now)) site.now.function arguments.now site.now.named)) result }
    ensures refused { RefusesFaultsAlone
        (call_points (context_of context.now) (filled_in filled.now) (place_at (known scope.now)) site.now.function
        arguments.now site.now.named)
        result }
{
    let callee = &context.program.functions[site.function];
    check_arguments(scope, context, site, callee.arguments.as_slice(), arguments)?;
    let returns = callee.result.is_some();
    check_call_result(scope, filled, context, site, returns)
}

/// As many arguments as are declared, each put by every run and of its declared type.
fn check_arguments(
    scope: &ScopeColumn,
    context: &BlockContext,
    site: &CallSite,
    declared: &[FunctionArgument],
    given: &[Handle<tag::Expression>],
) -> Result<(), Refused<FunctionError>>
    requires context { ContextFits (context_of context.now) }
    requires types { All (λ argument. argument.ty < length (context_of context.now).program.types) declared.now }
    ensures fault { Answers
        (FirstOf (within (InvalidCall site.now.function)
        (all_passed_points (context_of context.now) (place_at (known scope.now)) declared.now given.now)))
        result }
    ensures refused { RefusesFaultsAlone
        (within (InvalidCall site.now.function)
        (all_passed_points (context_of context.now) (place_at (known scope.now)) declared.now given.now))
        result }
{
    if declared.len() != given.len() {
        let error = CallError::ArgumentCount {
            required: declared.len(),
            seen: given.len(),
        };
        return Err(refused_call(scope.allocator(), site, error));
    }
    for index in 0..given.len() {
        let checked = check_argument(scope, context, index, declared[index].ty, given[index]);
        if let Err(error) = checked {
            return Err(refused_call(scope.allocator(), site, error));
        }
    }
    Ok(())
}

/// An argument: put by every run, and of its declared type.
fn check_argument(
    scope: &ScopeColumn,
    context: &BlockContext,
    index: usize,
    declared: Handle<tag::Type>,
    given: Handle<tag::Expression>,
) -> Result<(), CallError>
    requires context { ContextFits (context_of context.now) }
    requires declared { declared < length (context_of context.now).program.types }
    ensures { Finds (FirstOf (passed_points (context_of context.now) (place_at (known scope.now)) index declared
        given)) result }
{
    if !scope.may_use(given) {
        let source = ExpressionError::NotInScope;
        return Err(CallError::Argument { index, source });
    }
    if !is_passed_as(context, given, declared) {
        return Err(CallError::ArgumentType {
            index,
            required: declared,
            seen_expression: given,
        });
    }
    Ok(())
}

/// The result that a call names: not in scope yet, of the called function, which returns one, and fresh. A call that
/// names none is of a function that returns none.
fn check_call_result(
    scope: &ScopeColumn,
    filled: &FilledColumn,
    context: &BlockContext,
    site: &CallSite,
    returns: bool,
) -> Result<(), Refused<FunctionError>>
    ensures fault { Answers (FirstOf (within (InvalidCall site.now.function) (call_result_points
        (context_of context.now) (filled_in filled.now) (place_at (known scope.now)) site.now.function returns
        site.now.named))) result }
    ensures refused { RefusesFaultsAlone
        (within (InvalidCall site.now.function) (call_result_points (context_of context.now) (filled_in filled.now)
        (place_at (known scope.now)) site.now.function returns site.now.named))
        result }
{
    let alloc = scope.allocator();
    match &site.named {
        Some(handle) => {
            if scope.contains(*handle) {
                let error = CallError::ResultAlreadyInScope(*handle);
                return Err(refused_call(alloc, site, error));
            }
            if !is_call_result_of(site.function, context.expression(*handle)) || !returns {
                return Err(expression_mismatch(alloc, site));
            }
            if !is_fresh(filled, context, *handle) {
                let error = CallError::ResultAlreadyPopulated(*handle);
                return Err(refused_call(alloc, site, error));
            }
            Ok(())
        }
        None => {
            if returns {
                return Err(expression_mismatch(alloc, site));
            }
            Ok(())
        }
    }
}

/// Whether an expression is of the type that an argument is declared with.
fn is_passed_as(
    context: &BlockContext,
    given: Handle<tag::Expression>,
    declared: Handle<tag::Type>,
) -> bool
    requires context { ContextFits (context_of context.now) }
    requires declared { declared < length (context_of context.now).program.types }
    ensures { result ≡ is_passed_as (context_of context.now) given declared }
{
    match context.resolution(given) {
        None => false,
        Some(given) => compare_types(
            &TypeResolution::Handle(declared),
            given,
            &context.program.types,
        ),
    }
}

/// Whether an expression is the result of a call of this function.
fn is_call_result_of(function: Handle<tag::Function>, expression: Option<&Expression>) -> bool
    ensures { result ≡ is_call_result_of function (option_copied expression.entry) }
{
    match expression {
        Some(Expression::CallResult(called)) => *called == function,
        _ => false,
    }
}

/// The refusal of a call by this fault.
fn refused_call(alloc: Global, site: &CallSite, error: CallError) -> Refused<FunctionError>
    ensures { IsRefusalFor (InvalidCall site.now.function error) result }
{
    let function = site.function;
    Refused::placed(
        alloc,
        FunctionError::InvalidCall { function, error },
        *site.span,
    )
}

/// The refusal of a result that is none of this function, or of none where the function returns one.
fn expression_mismatch(alloc: Global, site: &CallSite) -> Refused<FunctionError>
    ensures { IsRefusalFor (InvalidCall site.now.function (ExpressionMismatch site.now.named)) result }
{
    refused_call(alloc, site, CallError::ExpressionMismatch(site.named))
}
