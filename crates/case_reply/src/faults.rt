//! The expression that a fault is about. Nothing here takes memory.

ghost use Rattle.std.specs.Prelude.{◌≡◌};
ghost use Rattle.case_reply.specs.FaultNames.{expression_handle, call_handle, atomic_handle, subgroup_handle, fault_handle};

use ir_arena::handle::Handle;
use ir_arena::tag;
use ir_errors::expression::ExpressionError;
use ir_errors::function::{AtomicError, CallError, FunctionError, SubgroupError};

fn expression_handle(error: ExpressionError) -> Option<Handle<tag::Expression>>
    ensures { result ≡ expression_handle error }
{
    match error {
        ExpressionError::InvalidImageCoordinateType(_, handle)
        | ExpressionError::InvalidImageArrayIndexType(handle) => Some(handle),
        _ => None,
    }
}

fn call_handle(error: CallError) -> Option<Handle<tag::Expression>>
    ensures { result ≡ call_handle error }
{
    match error {
        CallError::Argument { source, .. } => expression_handle(source),
        CallError::ResultAlreadyInScope(handle) | CallError::ResultAlreadyPopulated(handle) => Some(
            handle,
        ),
        CallError::ArgumentCount { .. } => None,
        CallError::ArgumentType {
            seen_expression,
            ..
        } => Some(seen_expression),
        CallError::ExpressionMismatch(handle) => handle,
    }
}

fn atomic_handle(error: AtomicError) -> Option<Handle<tag::Expression>>
    ensures { result ≡ atomic_handle error }
{
    match error {
        AtomicError::InvalidPointer(handle)
        | AtomicError::InvalidOperand(handle)
        | AtomicError::InvalidResultExpression(handle)
        | AtomicError::ResultExpressionExchange(handle)
        | AtomicError::ResultExpressionNotExchange(handle)
        | AtomicError::ResultTypeMismatch(handle)
        | AtomicError::ResultAlreadyPopulated(handle) => Some(handle),
        _ => None,
    }
}

fn subgroup_handle(error: SubgroupError) -> Option<Handle<tag::Expression>>
    ensures { result ≡ subgroup_handle error }
{
    match error {
        SubgroupError::InvalidOperand(handle)
        | SubgroupError::ResultTypeMismatch(handle)
        | SubgroupError::InvalidInvocationIdExprType(handle) => Some(handle),
        _ => None,
    }
}

/// The expression that a fault is about, if it is about one.
pub(crate) fn fault_handle(fault: &FunctionError) -> Option<Handle<tag::Expression>>
    ensures { result ≡ fault_handle fault.now }
{
    match fault {
        FunctionError::Expression { handle, .. }
        | FunctionError::ExpressionAlreadyInScope(handle)
        | FunctionError::InvalidIfType(handle)
        | FunctionError::InvalidSwitchType(handle)
        | FunctionError::InvalidStorePointer(handle)
        | FunctionError::InvalidStoreTexture { actual: handle, .. }
        | FunctionError::InvalidStoreValue { actual: handle, .. }
        | FunctionError::InvalidStoreTypes {
            pointer: handle,
            ..
        }
        | FunctionError::InvalidImageAtomicValue(handle)
        | FunctionError::InvalidRayQueryExpression(handle)
        | FunctionError::InvalidAccelerationStructure(handle)
        | FunctionError::MissingAccelerationStructureVertexReturn(handle, _)
        | FunctionError::MissingRayQueryVertexReturn(handle)
        | FunctionError::InvalidRayDescriptor(handle)
        | FunctionError::InvalidHitDistanceType(handle)
        | FunctionError::NonUniformControlFlow(_, handle, _)
        | FunctionError::WorkgroupUniformLoadExpressionMismatch(handle)
        | FunctionError::WorkgroupUniformLoadInvalidPointer(handle)
        | FunctionError::InvalidCooperativeStoreTarget(handle)
        | FunctionError::InvalidCooperativeDataPointer(handle)
        | FunctionError::EmitResult(handle)
        | FunctionError::UnvisitedExpression(handle)
        | FunctionError::InvalidMeshFunctionCall(handle)
        | FunctionError::ConflictingMeshOutputTypes(handle, _)
        | FunctionError::ConflictingTaskPayloadVariables(handle, _)
        | FunctionError::InvalidMeshShaderOutputType(handle) => Some(*handle),
        FunctionError::InvalidReturnType { expression, .. } => *expression,
        FunctionError::InvalidImageStore(error) | FunctionError::InvalidImageAtomic(error) => {
            expression_handle(*error)
        }
        FunctionError::InvalidCall { error, .. } => call_handle(*error),
        FunctionError::InvalidAtomic(error) => atomic_handle(*error),
        FunctionError::InvalidSubgroup(error) => subgroup_handle(*error),
        FunctionError::LocalVariable { .. }
        | FunctionError::InvalidArgumentType { .. }
        | FunctionError::NonConstructibleReturnType
        | FunctionError::InvalidArgumentPointerSpace { .. }
        | FunctionError::BreakOutsideOfLoopOrSwitch
        | FunctionError::ContinueOutsideOfLoop
        | FunctionError::InvalidReturnSpot
        | FunctionError::ConflictingSwitchCase(_)
        | FunctionError::ConflictingCaseType
        | FunctionError::MissingDefaultCase
        | FunctionError::MultipleDefaultCases
        | FunctionError::LastCaseFallTrough
        | FunctionError::InvalidImageAtomicFunction(_)
        | FunctionError::InvalidRayQueryType(_)
        | FunctionError::MissingCapability(_)
        | FunctionError::PipelineInputRegularFunction { .. }
        | FunctionError::PipelineOutputRegularFunction
        | FunctionError::NonUniformWorkgroupUniformLoad(_)
        | FunctionError::InvalidPayloadType
        | FunctionError::InvalidPayloadAddressSpace(_)
        | FunctionError::MismatchedPayloadType(_, _)
        | FunctionError::PayloadPointerNotGlobal => None,
    }
}
