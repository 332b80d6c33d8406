//! Clones of the errors of functions.

ghost use Rattle.std.specs.Prelude.{◌≡◌, IfOk};

use crate::function::FunctionError;
use std::alloc::{AllocError, Global};

impl FunctionError {
    /// Clones the error. An Err is out of memory.
    pub fn clone(&self, alloc: Global) -> Result<Self, AllocError>
        ensures { IfOk result (λ made. made ≡ self.now) }
    {
        Ok(match self {
            FunctionError::Expression { handle, source } => FunctionError::Expression {
                handle: *handle,
                source: *source,
            },
            FunctionError::ExpressionAlreadyInScope(expression) =>
                FunctionError::ExpressionAlreadyInScope(*expression),
            FunctionError::LocalVariable {
                handle,
                name,
                source,
            } => FunctionError::LocalVariable {
                handle: *handle,
                name: name.clone(alloc)?,
                source: *source,
            },
            FunctionError::InvalidArgumentType { index, name } =>
                FunctionError::InvalidArgumentType {
                    index: *index,
                    name: name.clone(alloc)?,
                },
            FunctionError::NonConstructibleReturnType => FunctionError::NonConstructibleReturnType,
            FunctionError::InvalidArgumentPointerSpace { index, name, space } =>
                FunctionError::InvalidArgumentPointerSpace {
                    index: *index,
                    name: name.clone(alloc)?,
                    space: *space,
                },
            FunctionError::BreakOutsideOfLoopOrSwitch => FunctionError::BreakOutsideOfLoopOrSwitch,
            FunctionError::ContinueOutsideOfLoop => FunctionError::ContinueOutsideOfLoop,
            FunctionError::InvalidReturnSpot => FunctionError::InvalidReturnSpot,
            FunctionError::InvalidReturnType {
                expression,
                expected_ty,
            } => FunctionError::InvalidReturnType {
                expression: *expression,
                expected_ty: *expected_ty,
            },
            FunctionError::InvalidIfType(expression) => FunctionError::InvalidIfType(*expression),
            FunctionError::InvalidSwitchType(expression) => FunctionError::InvalidSwitchType(
                *expression,
            ),
            FunctionError::ConflictingSwitchCase(value) => FunctionError::ConflictingSwitchCase(
                *value,
            ),
            FunctionError::ConflictingCaseType => FunctionError::ConflictingCaseType,
            FunctionError::MissingDefaultCase => FunctionError::MissingDefaultCase,
            FunctionError::MultipleDefaultCases => FunctionError::MultipleDefaultCases,
            FunctionError::LastCaseFallTrough => FunctionError::LastCaseFallTrough,
            FunctionError::InvalidStorePointer(expression) => FunctionError::InvalidStorePointer(
                *expression,
            ),
            FunctionError::InvalidStoreTexture { actual, actual_ty } =>
                FunctionError::InvalidStoreTexture {
                    actual: *actual,
                    actual_ty: actual_ty.clone(alloc)?,
                },
            FunctionError::InvalidStoreValue {
                actual,
                actual_ty,
                expected_ty,
            } => FunctionError::InvalidStoreValue {
                actual: *actual,
                actual_ty: actual_ty.clone(alloc)?,
                expected_ty: expected_ty.clone(alloc)?,
            },
            FunctionError::InvalidStoreTypes { pointer, value } =>
                FunctionError::InvalidStoreTypes {
                    pointer: *pointer,
                    value: *value,
                },
            FunctionError::InvalidImageStore(error) => FunctionError::InvalidImageStore(*error),
            FunctionError::InvalidImageAtomic(error) => FunctionError::InvalidImageAtomic(*error),
            FunctionError::InvalidImageAtomicFunction(fun) =>
                FunctionError::InvalidImageAtomicFunction(*fun),
            FunctionError::InvalidImageAtomicValue(expression) =>
                FunctionError::InvalidImageAtomicValue(*expression),
            FunctionError::InvalidCall { function, error } => FunctionError::InvalidCall {
                function: *function,
                error: *error,
            },
            FunctionError::InvalidAtomic(error) => FunctionError::InvalidAtomic(*error),
            FunctionError::InvalidRayQueryExpression(expression) =>
                FunctionError::InvalidRayQueryExpression(*expression),
            FunctionError::InvalidAccelerationStructure(expression) =>
                FunctionError::InvalidAccelerationStructure(*expression),
            FunctionError::MissingAccelerationStructureVertexReturn(first, second) =>
                FunctionError::MissingAccelerationStructureVertexReturn(*first, *second),
            FunctionError::MissingRayQueryVertexReturn(expression) =>
                FunctionError::MissingRayQueryVertexReturn(*expression),
            FunctionError::InvalidRayDescriptor(expression) => FunctionError::InvalidRayDescriptor(
                *expression,
            ),
            FunctionError::InvalidRayQueryType(ty) => FunctionError::InvalidRayQueryType(*ty),
            FunctionError::InvalidHitDistanceType(expression) =>
                FunctionError::InvalidHitDistanceType(*expression),
            FunctionError::MissingCapability(capabilities) => FunctionError::MissingCapability(
                *capabilities,
            ),
            FunctionError::NonUniformControlFlow(requirements, expression, disruptor) =>
                FunctionError::NonUniformControlFlow(*requirements, *expression, *disruptor),
            FunctionError::PipelineInputRegularFunction { name } =>
                FunctionError::PipelineInputRegularFunction {
                    name: name.clone(alloc)?,
                },
            FunctionError::PipelineOutputRegularFunction =>
                FunctionError::PipelineOutputRegularFunction,
            FunctionError::NonUniformWorkgroupUniformLoad(disruptor) =>
                FunctionError::NonUniformWorkgroupUniformLoad(*disruptor),
            FunctionError::WorkgroupUniformLoadExpressionMismatch(expression) =>
                FunctionError::WorkgroupUniformLoadExpressionMismatch(*expression),
            FunctionError::WorkgroupUniformLoadInvalidPointer(expression) =>
                FunctionError::WorkgroupUniformLoadInvalidPointer(*expression),
            FunctionError::InvalidSubgroup(error) => FunctionError::InvalidSubgroup(*error),
            FunctionError::InvalidCooperativeStoreTarget(expression) =>
                FunctionError::InvalidCooperativeStoreTarget(*expression),
            FunctionError::InvalidCooperativeDataPointer(expression) =>
                FunctionError::InvalidCooperativeDataPointer(*expression),
            FunctionError::EmitResult(expression) => FunctionError::EmitResult(*expression),
            FunctionError::UnvisitedExpression(expression) => FunctionError::UnvisitedExpression(
                *expression,
            ),
            FunctionError::InvalidMeshFunctionCall(expression) =>
                FunctionError::InvalidMeshFunctionCall(*expression),
            FunctionError::ConflictingMeshOutputTypes(first, second) =>
                FunctionError::ConflictingMeshOutputTypes(*first, *second),
            FunctionError::ConflictingTaskPayloadVariables(first, second) =>
                FunctionError::ConflictingTaskPayloadVariables(*first, *second),
            FunctionError::InvalidMeshShaderOutputType(expression) =>
                FunctionError::InvalidMeshShaderOutputType(*expression),
            FunctionError::InvalidPayloadType => FunctionError::InvalidPayloadType,
            FunctionError::InvalidPayloadAddressSpace(space) =>
                FunctionError::InvalidPayloadAddressSpace(*space),
            FunctionError::MismatchedPayloadType(first, second) =>
                FunctionError::MismatchedPayloadType(*first, *second),
            FunctionError::PayloadPointerNotGlobal => FunctionError::PayloadPointerNotGlobal,
        })
    }
}
