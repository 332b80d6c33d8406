//! What the check lists of subgroup statements share; then the list of SubgroupBallot.

ghost use Rattle.std.specs.Prelude.{◌≡◌, ◌<◌, ◌∷◌, [], OnOk};
ghost use Rattle.std.specs.Option.{option_copied};
ghost use Rattle.check_scope.specs.walk.Findings.{RefusesFaultsAlone};
ghost use Rattle.ir_facts.specs.Answers.{Answers, Finds, FirstOf};
ghost use Rattle.check_scope.specs.walk.Place.{place_at};
ghost use Rattle.check_subgroups.specs.walk.SubgroupParts.{combined_points};
ghost use Rattle.check_scope.specs.walk.SeenContext.{context_of};
ghost use Rattle.check_subgroups.specs.Subgroup.{operations_point, subgroups_point, predicate_points, ballot_points, is_number_kind, combined_type_at};
ghost use Rattle.check_scope.specs.walk.Table.{HasPut, count, known};

use check_scope::context::BlockContext;
use check_scope::refuse::{answer, check_put, check_use};
use check_scope::table::ScopeColumn;
use check_scope::types::{are_same_inners, is_scalar};
use ir_arena::handle::Handle;
use ir_arena::span::Span;
use ir_arena::{Refused, tag};
use ir_errors::function::{FunctionError, SubgroupError};
use ir_facts::valid::settings::Settings;
use ir_flags::capabilities::Capabilities;
use ir_flags::valid::SubgroupOperationSet;
use ir_leaves::scalars::{Scalar, ScalarKind};
use ir_module::expressions::Expression;
use ir_types::type_methods::inner_at;
use ir_types::types::TypeInner;

/// Groups of operations, which the target has.
pub(crate) fn check_operations(
    settings: &Settings,
    needed: SubgroupOperationSet,
) -> Result<(), FunctionError>
    ensures { Finds (FirstOf (operations_point settings.now needed ∷ [])) result }
{
    if !settings.subgroup_operations.contains(needed) {
        let error = SubgroupError::UnsupportedOperation(needed);
        return Err(FunctionError::InvalidSubgroup(error));
    }
    Ok(())
}

/// Subgroups, which the target has at all.
pub(crate) fn check_subgroups(settings: &Settings) -> Result<(), FunctionError>
    ensures { Finds (FirstOf (subgroups_point settings.now ∷ [])) result }
{
    let needed = Capabilities::SUBGROUP;
    if !settings.capabilities.contains(needed) {
        return Err(FunctionError::MissingCapability(needed));
    }
    Ok(())
}

/// SubgroupBallot: its predicate and its result, which is in scope afterwards.
pub fn validate_ballot(
    scope: &mut ScopeColumn,
    context: &BlockContext,
    ballot: Handle<tag::Expression>,
    predicate: &Option<Handle<tag::Expression>>,
    span: Span,
) -> Result<(), Refused<FunctionError>>
    requires { ballot < count scope.old }
    ensures fault { Answers
        (FirstOf (ballot_points (context_of context.now) (place_at (known scope.old)) ballot predicate.now)) result }
    ensures refused { RefusesFaultsAlone
        (ballot_points (context_of context.now) (place_at (known scope.old)) ballot predicate.now) result }
    ensures scope { OnOk result (HasPut scope.old scope.new (ballot ∷ [])) }
{
    let alloc = scope.allocator();
    let checked = check_ballot(scope, context, ballot, predicate);
    answer(alloc, checked, span)?;
    scope.put(ballot);
    Ok(())
}

/// All that is checked of a ballot. Its result stays out of scope.
#[tactic(auto, using(ir_arena::proofs::Points::first_of_both))]
fn check_ballot(
    scope: &ScopeColumn,
    context: &BlockContext,
    ballot: Handle<tag::Expression>,
    predicate: &Option<Handle<tag::Expression>>,
) -> Result<(), FunctionError>
    ensures { Finds (FirstOf (ballot_points (context_of context.now) (place_at (known scope.now)) ballot
        predicate.now)) result }
{
    check_subgroups(&context.settings)?;
    check_operations(&context.settings, SubgroupOperationSet::BALLOT)?;
    check_predicate(scope, context, predicate)?;
    check_put(scope, ballot)
}

/// The predicate, if there is one: put by every run, and a bool of one byte.
fn check_predicate(
    scope: &ScopeColumn,
    context: &BlockContext,
    predicate: &Option<Handle<tag::Expression>>,
) -> Result<(), FunctionError>
    ensures { Finds (FirstOf (predicate_points (context_of context.now) (place_at (known scope.now))
        predicate.now)) result }
{
    match predicate {
        Some(handle) => {
            check_use(scope, *handle)?;
            if !is_scalar(Scalar::BOOL, context.type_inner(*handle)) {
                let error = SubgroupError::InvalidOperand(*handle);
                return Err(FunctionError::InvalidSubgroup(error));
            }
            Ok(())
        }
        None => Ok(()),
    }
}

/// Whether a kind is that of integers of either sign, or of floats.
pub(crate) fn is_number_kind(kind: ScalarKind) -> bool
    ensures { result ≡ is_number_kind kind }
{
    matches!(
        kind,
        ScalarKind::Sint | ScalarKind::Uint | ScalarKind::Float
    )
}

/// The result of a collective operation or a gather: it is not in scope yet, and of the argument's type.
pub(crate) fn check_combined(
    scope: &ScopeColumn,
    context: &BlockContext,
    argument: Handle<tag::Expression>,
    combined: Handle<tag::Expression>,
) -> Result<(), FunctionError>
    ensures { Finds (FirstOf (combined_points (context_of context.now) (place_at (known scope.now)) argument
        combined)) result }
{
    check_put(scope, combined)?;
    if !are_same_inners(
        combined_type(context, combined),
        context.type_inner(argument),
    ) {
        let error = SubgroupError::ResultTypeMismatch(combined);
        return Err(FunctionError::InvalidSubgroup(error));
    }
    Ok(())
}

/// The type that the result of a subgroup operation is declared with.
fn combined_type<'a>(
    context: &BlockContext<'a>,
    combined: Handle<tag::Expression>,
) -> Option<&'a TypeInner>
    ensures { option_copied result ≡ combined_type_at (context_of context.now) combined }
{
    match context.expression(combined) {
        Some(Expression::SubgroupOperationResult { ty }) => {
            inner_at(context.program.types.as_slice(), *ty)
        }
        _ => None,
    }
}
