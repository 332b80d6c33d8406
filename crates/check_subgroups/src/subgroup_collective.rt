//! The check list of SubgroupCollectiveOperation.

ghost use Rattle.std.specs.Prelude.{◌≡◌, ◌<◌, ◌∷◌, [], OnOk};
ghost use Rattle.std.specs.Option.{option_copied};
ghost use Rattle.check_scope.specs.walk.Findings.{RefusesFaultsAlone};
ghost use Rattle.ir_facts.specs.Answers.{Answers, Finds, FirstOf};
ghost use Rattle.check_scope.specs.walk.Place.{place_at};
ghost use Rattle.check_scope.specs.walk.SeenContext.{context_of};
ghost use Rattle.check_subgroups.specs.SubgroupCollective.{is_wide_integer, is_combined_by, takes_vectors, is_operand_of, is_scanned, is_done_over, collective_points};
ghost use Rattle.check_scope.specs.walk.Table.{HasPut, count, known};

use crate::subgroup::{check_combined, check_operations, check_subgroups, is_number_kind};
use check_scope::context::BlockContext;
use check_scope::refuse::{answer, check_use};
use check_scope::table::ScopeColumn;
use check_scope::types::is_integer_kind;
use ir_arena::handle::Handle;
use ir_arena::span::Span;
use ir_arena::{Refused, tag};
use ir_errors::function::{FunctionError, SubgroupError};
use ir_leaves::scalars::{Scalar, ScalarKind};
use ir_statements::operations::{CollectiveOperation, SubgroupOperation};
use ir_types::types::TypeInner;

/// A collective operation: over which invocations it is done, on which argument, and its result.
#[derive(Clone, Copy)]
pub struct Collective {
    pub operation: SubgroupOperation,
    pub part: CollectiveOperation,
    pub argument: Handle<tag::Expression>,
    pub combined: Handle<tag::Expression>,
}

/// SubgroupCollectiveOperation: its argument, its operation, and its result, which is in scope afterwards.
pub fn validate_collective(
    scope: &mut ScopeColumn,
    context: &BlockContext,
    collective: &Collective,
    span: Span,
) -> Result<(), Refused<FunctionError>>
    requires { collective.now.combined < count scope.old }
    ensures fault { Answers
        (FirstOf (collective_points (context_of context.now) (place_at (known scope.old)) collective.now.operation
        collective.now.part collective.now.argument collective.now.combined))
        result }
    ensures refused { RefusesFaultsAlone
        (collective_points (context_of context.now) (place_at (known scope.old)) collective.now.operation
        collective.now.part collective.now.argument collective.now.combined)
        result }
    ensures scope { OnOk result (HasPut scope.old scope.new (collective.now.combined ∷ [])) }
{
    let alloc = scope.allocator();
    let checked = check_collective(scope, context, collective);
    answer(alloc, checked, span)?;
    scope.put(collective.combined);
    Ok(())
}

/// All that is checked of a collective operation. Its result stays out of scope.
fn check_collective(
    scope: &ScopeColumn,
    context: &BlockContext,
    collective: &Collective,
) -> Result<(), FunctionError>
    ensures { Finds
        (FirstOf (collective_points (context_of context.now) (place_at (known scope.now)) collective.now.operation
        collective.now.part collective.now.argument collective.now.combined))
        result }
{
    let Collective {
        operation,
        part,
        argument,
        combined,
    } = *collective;
    check_subgroups(&context.settings)?;
    check_operations(&context.settings, operation.required_operations())?;
    check_use(scope, argument)?;
    if !is_operand_of(operation, context.type_inner(argument)) {
        let error = SubgroupError::InvalidOperand(argument);
        return Err(FunctionError::InvalidSubgroup(error));
    }
    if !is_done_over(part, operation) {
        return Err(FunctionError::InvalidSubgroup(SubgroupError::UnknownOperation));
    }
    check_combined(scope, context, argument, combined)
}

/// Whether a type is a scalar that the operation combines, or a vector of one where it takes vectors.
fn is_operand_of(operation: SubgroupOperation, inner: Option<&TypeInner>) -> bool
    ensures { result ≡ is_operand_of operation (option_copied inner.entry) }
{
    match inner {
        Some(TypeInner::Scalar(scalar)) => is_combined_by(operation, *scalar),
        Some(TypeInner::Vector { scalar, .. }) => {
            takes_vectors(operation) && is_combined_by(operation, *scalar)
        }
        _ => false,
    }
}

fn takes_vectors(operation: SubgroupOperation) -> bool
    ensures { result ≡ takes_vectors operation }
{
    !matches!(operation, SubgroupOperation::All | SubgroupOperation::Any)
}

/// Whether an operation combines such scalars.
fn is_combined_by(operation: SubgroupOperation, scalar: Scalar) -> bool
    ensures { result ≡ is_combined_by operation scalar }
{
    match operation {
        SubgroupOperation::All | SubgroupOperation::Any => matches!(scalar.kind, ScalarKind::Bool),
        SubgroupOperation::Add
        | SubgroupOperation::Mul
        | SubgroupOperation::Min
        | SubgroupOperation::Max => is_number_kind(scalar.kind),
        SubgroupOperation::And | SubgroupOperation::Or | SubgroupOperation::Xor => {
            is_wide_integer(scalar)
        }
    }
}

/// Whether a scalar is an integer of 32 bits or more, of either sign.
fn is_wide_integer(scalar: Scalar) -> bool
    ensures { result ≡ is_wide_integer scalar }
{
    is_integer_kind(Some(scalar.kind)) && scalar.width >= 4
}

/// Whether an operation is done over such a part of the invocations.
fn is_done_over(part: CollectiveOperation, operation: SubgroupOperation) -> bool
    ensures { result ≡ is_done_over part operation }
{
    match part {
        CollectiveOperation::Reduce => true,
        CollectiveOperation::InclusiveScan | CollectiveOperation::ExclusiveScan => {
            is_scanned(operation)
        }
    }
}

fn is_scanned(operation: SubgroupOperation) -> bool
    ensures { result ≡ is_scanned operation }
{
    matches!(operation, SubgroupOperation::Add | SubgroupOperation::Mul)
}
