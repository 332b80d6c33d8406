//! The check list of Emit.

ghost use Rattle.std.specs.Prelude.{◌≡◌, ◌<◌, ◌≤◌, ◌↔◌, false, IsTrue, OnOk, length, map};
ghost use Rattle.std.specs.Option.{option_copied};
ghost use Rattle.check_flow.specs.Emit.{emit_points, emitted_points};
ghost use Rattle.check_scope.specs.Results.{is_result};
ghost use Rattle.check_scope.specs.walk.Place.{place_at};
ghost use Rattle.check_flow.specs.walk.Emitted.{handles_between};
ghost use Rattle.check_scope.specs.walk.Findings.{AllHold, RefusesFaultsAlone};
ghost use Rattle.ir_facts.specs.Answers.{Answers, Finds, FirstOf, IsFirstFault};
ghost use Rattle.check_scope.specs.walk.SeenContext.{context_of};
ghost use Rattle.check_scope.specs.BodyTrees.{emitted_operands, operands_if};
ghost use Rattle.check_scope.specs.ExpressionTypes.{expression_at};
ghost use Rattle.check_scope.specs.ScopePoints.{use_point};
ghost use Rattle.check_scope.specs.walk.Table.{HasPut, KnowsOperands, count, known};

use check_scope::context::BlockContext;
use check_scope::refuse::{answer, check_put, check_use};
use check_scope::table::{OperandColumn, ScopeColumn};
use ir_arena::handle::Handle;
use ir_arena::range::Range;
use ir_arena::span::Span;
use ir_arena::{Refused, tag};
use ir_errors::function::FunctionError;
use ir_module::expressions::Expression;
use ir_module::operands::listed_operands;

// from how many operands on it is kept that they may be used
const LONG_LIST: usize = 16;

/// Emit: brings the expressions of a range into scope, one by one, each after its operands.
pub fn validate_emit(
    scope: &mut ScopeColumn,
    operands: &mut OperandColumn,
    context: &BlockContext,
    range: Range,
    span: &Span,
) -> Result<(), Refused<FunctionError>>
    requires there { range.end ≤ count scope.old }
    requires count { count scope.old ≡ length (context_of context.now).fun.expressions }
    requires operands { KnowsOperands (emitted_operands (context_of context.now).fun) operands.old scope.old }
    ensures fault { Answers
        (FirstOf (emit_points (context_of context.now) (place_at (known scope.old)) range.start range.end)) result }
    ensures refused { RefusesFaultsAlone
        (emit_points (context_of context.now) (place_at (known scope.old)) range.start range.end) result }
    ensures scope { OnOk result (HasPut scope.old scope.new (handles_between range.start range.end)) }
    ensures operands { OnOk result (KnowsOperands (emitted_operands (context_of context.now).fun) operands.new scope.new) }
{
    for index in range.start..range.end {
        let handle = Handle::new(index);
        check_emitted(scope, operands, context, handle, span)?;
        scope.put(handle);
    }
    Ok(())
}

/// An expression that is emitted: no result of another statement, its operands put by every run, and itself not in
/// scope yet.
fn check_emitted(
    scope: &ScopeColumn,
    operands: &mut OperandColumn,
    context: &BlockContext,
    handle: Handle<tag::Expression>,
    span: &Span,
) -> Result<(), Refused<FunctionError>>
    requires there { handle < length (context_of context.now).fun.expressions }
    requires operands { KnowsOperands (emitted_operands (context_of context.now).fun) operands.old scope.now }
    ensures fault { Answers (FirstOf (emitted_points (context_of context.now) (place_at (known scope.now))
        (place_at (known scope.now)) handle)) result }
    ensures refused { RefusesFaultsAlone
        (emitted_points (context_of context.now) (place_at (known scope.now)) (place_at (known scope.now)) handle)
        result }
    ensures operands { KnowsOperands (emitted_operands (context_of context.now).fun) operands.new scope.now }
{
    if emitted_holds(scope, operands, context, handle) {
        return Ok(());
    }
    Err(refused_emission(scope, context, handle, span))
}

/// Whether no point of an expression that is emitted fails.
fn emitted_holds(
    scope: &ScopeColumn,
    operands: &mut OperandColumn,
    context: &BlockContext,
    handle: Handle<tag::Expression>,
) -> bool
    requires there { handle < length (context_of context.now).fun.expressions }
    requires operands { KnowsOperands (emitted_operands (context_of context.now).fun) operands.old scope.now }
    ensures holds { IsTrue result ↔ AllHold
        (emitted_points (context_of context.now) (place_at (known scope.now)) (place_at (known scope.now)) handle) }
    ensures operands { KnowsOperands (emitted_operands (context_of context.now).fun) operands.new scope.now }
{
    let expression = context.expression(handle);
    if !operands_hold(scope, operands, context, handle, expression) {
        return false;
    }
    !scope.contains(handle)
}

/// Whether an expression is no result of another statement, and every run has put its operands. Its kind is asked for
/// once, the frequent ones first.
fn operands_hold(
    scope: &ScopeColumn,
    operands: &mut OperandColumn,
    context: &BlockContext,
    handle: Handle<tag::Expression>,
    expression: Option<&Expression>,
) -> bool
    requires there { handle < length (context_of context.now).fun.expressions }
    requires expression { option_copied expression ≡ expression_at (context_of context.now) handle }
    requires operands { KnowsOperands (emitted_operands (context_of context.now).fun) operands.old scope.now }
    ensures holds { IsTrue result ↔ ((is_result (option_copied expression.entry) ≡ false) × AllHold
        (map (use_point (place_at (known scope.now))) (operands_if (option_copied expression.entry)))) }
    ensures operands { KnowsOperands (emitted_operands (context_of context.now).fun) operands.new scope.now }
{
    match expression {
        Some(Expression::Load { pointer }) => scope.may_use(*pointer),
        Some(Expression::AccessIndex { base, .. }) => scope.may_use(*base),
        Some(Expression::Access { base, index }) => scope.may_use(*base) && scope.may_use(*index),
        Some(other) => {
            if is_result(expression) {
                return false;
            }
            let list = listed_operands(other);
            if list.len() < LONG_LIST {
                return listed_hold(scope, list);
            }
            long_list_holds(scope, operands, context, handle, list)
        }
        None => true,
    }
}

/// Whether every run has put the operands of a list.
fn listed_hold(scope: &ScopeColumn, operands: &[Handle<tag::Expression>]) -> bool
    ensures { IsTrue result ↔ AllHold (map (use_point (place_at (known scope.now))) operands.now) }
{
    for index in 0..operands.len() {
        if !scope.may_use(operands[index]) {
            return false;
        }
    }
    true
}

/// The same of the operands of an expression, where these are many: once every run had put them all, it is kept which
/// scope was the last of those that put them, and while that is open they needn't be asked again.
#[inline(never)]
fn long_list_holds(
    scope: &ScopeColumn,
    operands: &mut OperandColumn,
    context: &BlockContext,
    handle: Handle<tag::Expression>,
    list: &[Handle<tag::Expression>],
) -> bool
    requires there { handle < length (context_of context.now).fun.expressions }
    requires list { list.now ≡ emitted_operands (context_of context.now).fun handle }
    requires operands { KnowsOperands (emitted_operands (context_of context.now).fun) operands.old scope.now }
    ensures holds { IsTrue result ↔ AllHold (map (use_point (place_at (known scope.now))) list.now) }
    ensures operands { KnowsOperands (emitted_operands (context_of context.now).fun) operands.new scope.now }
{
    if operands.is_known(scope, handle) {
        return true;
    }
    if !listed_hold(scope, list) {
        return false;
    }
    let count = context.fun.expressions.len();
    // where memory is short nothing is kept
    let _ = operands.keep(count, handle, scope.last_of(list));
    true
}

/// The refusal of an expression of which a point fails. What it answers is small, so that whoever asks has no room to
/// clear while all is well.
#[cold]
#[inline(never)]
fn refused_emission(
    scope: &ScopeColumn,
    context: &BlockContext,
    handle: Handle<tag::Expression>,
    span: &Span,
) -> Refused<FunctionError>
    requires fails { AllHold (emitted_points (context_of context.now) (place_at (known scope.now))
        (place_at (known scope.now)) handle) → ⊥ }
    ensures { IsFirstFault (emitted_points (context_of context.now) (place_at (known scope.now))
        (place_at (known scope.now)) handle) result }
{
    match first_fault_of_emitted(scope, context, handle, span) {
        Err(refused) => refused,
        Ok(()) => unreachable!(),
    }
}

/// The list of an expression that is emitted, with the place of each fault.
fn first_fault_of_emitted(
    scope: &ScopeColumn,
    context: &BlockContext,
    handle: Handle<tag::Expression>,
    span: &Span,
) -> Result<(), Refused<FunctionError>>
    ensures fault { Answers (FirstOf (emitted_points (context_of context.now) (place_at (known scope.now))
        (place_at (known scope.now)) handle)) result }
    ensures refused { RefusesFaultsAlone
        (emitted_points (context_of context.now) (place_at (known scope.now)) (place_at (known scope.now)) handle)
        result }
{
    let checked = check_emitted_points(scope, context, handle);
    answer(scope.allocator(), checked, *span)
}

/// The list of an expression that is emitted, with the fault of each point.
fn check_emitted_points(
    scope: &ScopeColumn,
    context: &BlockContext,
    handle: Handle<tag::Expression>,
) -> Result<(), FunctionError>
    ensures { Finds (FirstOf (emitted_points (context_of context.now) (place_at (known scope.now))
        (place_at (known scope.now)) handle)) result }
{
    let expression = context.expression(handle);
    if is_result(expression) {
        return Err(FunctionError::EmitResult(handle));
    }
    check_operands(scope, expression)?;
    check_put(scope, handle)
}

/// The operands of an expression, each put by every run.
fn check_operands(scope: &ScopeColumn, expression: Option<&Expression>) -> Result<(), FunctionError>
    ensures { Finds (FirstOf (map (use_point (place_at (known scope.now))) (operands_if
        (option_copied expression.entry)))) result }
{
    match expression {
        Some(Expression::Load { pointer }) => check_use(scope, *pointer),
        Some(Expression::AccessIndex { base, .. }) => check_use(scope, *base),
        Some(Expression::Access { base, index }) => {
            check_use(scope, *base)?;
            check_use(scope, *index)
        }
        Some(expression) => check_listed(scope, listed_operands(expression)),
        None => Ok(()),
    }
}

/// The operands of a list, in order.
fn check_listed(
    scope: &ScopeColumn,
    operands: &[Handle<tag::Expression>],
) -> Result<(), FunctionError>
    ensures { Finds (FirstOf (map (use_point (place_at (known scope.now))) operands.now)) result }
{
    for index in 0..operands.len() {
        check_use(scope, operands[index])?;
    }
    Ok(())
}

/// Whether an expression is of a kind that another statement than Emit puts.
fn is_result(expression: Option<&Expression>) -> bool
    ensures { result ≡ is_result (option_copied expression.entry) }
{
    match expression {
        None => false,
        Some(
            Expression::CallResult(_)
            | Expression::AtomicResult { .. }
            | Expression::WorkGroupUniformLoadResult { .. }
            | Expression::RayQueryProceedResult
            | Expression::SubgroupBallotResult
            | Expression::SubgroupOperationResult { .. },
        ) => true,
        Some(
            Expression::Literal(_)
            | Expression::Constant(_)
            | Expression::Override(_)
            | Expression::ZeroValue(_)
            | Expression::Compose { .. }
            | Expression::Access { .. }
            | Expression::AccessIndex { .. }
            | Expression::FunctionArgument(_)
            | Expression::GlobalVariable(_)
            | Expression::LocalVariable(_)
            | Expression::Load { .. }
            | Expression::Splat { .. }
            | Expression::Swizzle { .. }
            | Expression::ImageSample { .. }
            | Expression::ImageLoad { .. }
            | Expression::ImageQuery { .. }
            | Expression::Unary { .. }
            | Expression::Binary { .. }
            | Expression::Select { .. }
            | Expression::Derivative { .. }
            | Expression::Relational { .. }
            | Expression::Math { .. }
            | Expression::As { .. }
            | Expression::ArrayLength { .. }
            | Expression::RayQueryGetIntersection { .. }
            | Expression::RayQueryVertexPositions { .. }
            | Expression::CooperativeLoad { .. }
            | Expression::CooperativeMultiplyAdd { .. },
        ) => false,
    }
}
