//! Uses, and refusals with the place of their statement.

ghost use Rattle.std.specs.Prelude.{[], ◌∷◌};
ghost use Rattle.ir_errors.specs.declared.expression.ExpressionError.TheVariants.{NotInScope};
ghost use Rattle.ir_errors.specs.declared.function.FunctionError.TheVariants.{Expression};
ghost use Rattle.ir_arena.specs.Refusals.{IsRefusalFor};
ghost use Rattle.check_scope.specs.walk.Findings.{RefusesFaultsAlone};
ghost use Rattle.ir_facts.specs.Answers.{Answers, Finds, FirstOf};
ghost use Rattle.check_scope.specs.ScopePoints.{Points, use_point, put_point};
ghost use Rattle.check_scope.specs.walk.Place.{place_at};
ghost use Rattle.check_scope.specs.walk.Table.{known};

use crate::table::ScopeColumn;
use ir_arena::handle::Handle;
use ir_arena::span::Span;
use ir_arena::{Refused, tag};
use ir_errors::expression::ExpressionError;
use ir_errors::function::FunctionError;
use std::alloc::Global;

/// A use: every run that comes here has emitted the expression.
pub fn check_use(scope: &ScopeColumn, handle: Handle<tag::Expression>) -> Result<(), FunctionError>
    ensures { Finds (FirstOf (use_point (place_at (known scope.now)) handle ∷ [])) result }
{
    if !scope.may_use(handle) {
        return Err(FunctionError::Expression {
            handle,
            source: ExpressionError::NotInScope,
        });
    }
    Ok(())
}

/// An emission, before it is made: the expression is not in scope.
pub fn check_put(scope: &ScopeColumn, handle: Handle<tag::Expression>) -> Result<(), FunctionError>
    ensures { Finds (FirstOf (put_point (place_at (known scope.now)) handle ∷ [])) result }
{
    if scope.contains(handle) {
        return Err(FunctionError::ExpressionAlreadyInScope(handle));
    }
    Ok(())
}

/// The refusal of a use. What makes refusals stands apart from the checks that are asked most often, so that these
/// hold no fault while all is well.
#[cold]
#[inline(never)]
pub fn not_in_scope(
    alloc: Global,
    handle: Handle<tag::Expression>,
    span: Span,
) -> Refused<FunctionError>
    ensures { IsRefusalFor (Expression handle NotInScope) result }
{
    let fault = FunctionError::Expression {
        handle,
        source: ExpressionError::NotInScope,
    };
    Refused::placed(alloc, fault, span)
}

/// The answer of a check of the statement at a place.
#[tactic(auto, using(ir_facts::proofs::Refusals::refuses_fault))]
pub fn answer(
    alloc: Global,
    checked: Result<(), FunctionError>,
    span: Span,
) -> Result<(), Refused<FunctionError>>
    ensures fault { (points : Points) → Finds (FirstOf points) checked → Answers (FirstOf points) result }
    ensures refused { (points : Points) → Finds (FirstOf points) checked → RefusesFaultsAlone points result }
{
    match checked {
        Ok(()) => Ok(()),
        Err(fault) => Err(Refused::placed(alloc, fault, span)),
    }
}

/// The answer of a check of the function as a whole.
#[tactic(auto, using(ir_facts::proofs::Refusals::refuses_fault))]
pub fn answer_of_function(
    alloc: Global,
    checked: Result<(), FunctionError>,
) -> Result<(), Refused<FunctionError>>
    ensures fault { (points : Points) → Finds (FirstOf points) checked → Answers (FirstOf points) result }
    ensures refused { (points : Points) → Finds (FirstOf points) checked → RefusesFaultsAlone points result }
{
    match checked {
        Ok(()) => Ok(()),
        Err(fault) => Err(Refused::unplaced(alloc, fault)),
    }
}
