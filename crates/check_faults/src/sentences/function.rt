//! Errors of functions.

use crate::sentences::{Explain, explain_inside};
use ir_errors::function::{
    AtomicError, CallError, FunctionError, LocalVariableError, SubgroupError,
};
use std::fmt;

impl Explain for CallError {
    fn sentence(&self) -> &'static str {
        match self {
            CallError::Argument { .. } => "an argument is invalid",
            CallError::ResultAlreadyInScope(_) => "the result is in scope before the call",
            CallError::ResultAlreadyPopulated(_) =>
                "an earlier call or atomic operation has this result, or the flag EXPRESSIONS is off",
            CallError::ArgumentCount { .. } =>
                "the call passes more or fewer arguments than the function declares",
            CallError::ArgumentType { .. } =>
                "an argument is of another type than the function declares",
            CallError::ExpressionMismatch(_) =>
                "the call must have a result, a `CallResult` of its function, exactly if the function returns a value",
        }
    }

    fn explain<W: fmt::Write>(&self, writer: &mut W) -> fmt::Result {
        writer.write_str(self.sentence())?;
        match self {
            CallError::Argument { source, .. } => explain_inside(source, writer),
            _ => Ok(()),
        }
    }
}

impl Explain for AtomicError {
    fn sentence(&self) -> &'static str {
        match self {
            AtomicError::InvalidPointer(_) => "the pointer doesn't point to an atomic",
            AtomicError::InvalidAddressSpace(_) =>
                "the operation isn't supported on this scalar type in this address space",
            AtomicError::InvalidOperand(_) =>
                "the value, or the value to compare with, is not of the atomic's scalar type",
            AtomicError::InvalidOperator(_) =>
                "the operation isn't supported on the atomic's scalar type",
            AtomicError::InvalidResultExpression(_) => "the result is not an `AtomicResult`",
            AtomicError::ResultExpressionExchange(_) =>
                "the result is marked as that of a compare exchange, and the operation compares nothing",
            AtomicError::ResultExpressionNotExchange(_) =>
                "the operation is a compare exchange, and the result isn't marked as that of one",
            AtomicError::ResultTypeMismatch(_) =>
                "the result is of another type than the operation returns",
            AtomicError::MissingReturnValue =>
                "an exchange that compares nothing must have a result",
            AtomicError::MissingCapability(_) =>
                "the target lacks a capability that the operation needs",
            AtomicError::ResultAlreadyPopulated(_) =>
                "an earlier call or atomic operation has this result, or the flag EXPRESSIONS is off",
        }
    }
}

impl Explain for SubgroupError {
    fn sentence(&self) -> &'static str {
        match self {
            SubgroupError::InvalidOperand(_) =>
                "the operation isn't supported on the operand's type",
            SubgroupError::ResultTypeMismatch(_) =>
                "the result is of another kind or type than the operation returns",
            SubgroupError::UnsupportedOperation(_) =>
                "the target doesn't support these subgroup operations",
            SubgroupError::UnknownOperation => "a scan supports only Add and Mul",
            SubgroupError::InvalidInvocationIdExprType(_) =>
                "the index of a broadcast must be a constant",
        }
    }
}

impl Explain for LocalVariableError {
    fn sentence(&self) -> &'static str {
        match self {
            LocalVariableError::InvalidType(_) =>
                "the type of a local variable must be constructible",
            LocalVariableError::InitializerType =>
                "the initializer is of another type than the variable",
            LocalVariableError::NonConstOrOverrideInitializer =>
                "the initializer must be a constant or an override expression",
        }
    }
}

impl Explain for FunctionError {
    fn sentence(&self) -> &'static str {
        match self {
            FunctionError::Expression { .. } =>
                "an expression, or an operand of a statement, is invalid",
            FunctionError::ExpressionAlreadyInScope(_) =>
                "a statement brings an expression into scope that is already in scope",
            FunctionError::LocalVariable { .. } => "a local variable is invalid",
            FunctionError::InvalidArgumentType { .. } =>
                "an argument is of a type that can't be passed",
            FunctionError::NonConstructibleReturnType => "the return type must be constructible",
            FunctionError::InvalidArgumentPointerSpace { .. } =>
                "a pointer argument points into an address space other than `Function` and `Private`",
            FunctionError::BreakOutsideOfLoopOrSwitch =>
                "a break must be inside a loop body or a switch case, with no continuing block between",
            FunctionError::ContinueOutsideOfLoop =>
                "a continue must be inside a loop body, with no continuing block between",
            FunctionError::InvalidReturnSpot => "a return stands in a continuing block",
            FunctionError::InvalidReturnType { .. } =>
                "the returned value doesn't match the declared return type, or only one of them is there",
            FunctionError::InvalidIfType(_) =>
                "the condition of an if, or the `break_if` of a loop, is not a bool",
            FunctionError::InvalidSwitchType(_) =>
                "the selector of a switch is not made of integers",
            FunctionError::ConflictingSwitchCase(_) => "two cases of a switch have this value",
            FunctionError::ConflictingCaseType =>
                "a case value is signed and the selector isn't, or the other way round",
            FunctionError::MissingDefaultCase => "a switch has no default case",
            FunctionError::MultipleDefaultCases => "a switch has more than one default case",
            FunctionError::LastCaseFallTrough => "the last case of a switch falls through",
            FunctionError::InvalidStorePointer(_) =>
                "the pointer doesn't lead to a variable or an argument, or its address space is not writable",
            FunctionError::InvalidStoreTexture { .. } =>
                "the stored value is an image or a sampler",
            FunctionError::InvalidStoreValue { .. } =>
                "the value of an image store is of another type than the image's format has",
            FunctionError::InvalidStoreTypes { .. } =>
                "the stored value is not of the type that the pointer points to",
            FunctionError::InvalidImageStore(_) =>
                "the image, the coordinate or the array index of an image store is invalid",
            FunctionError::InvalidImageAtomic(_) =>
                "the image, the coordinate or the array index of an image atomic is invalid",
            FunctionError::InvalidImageAtomicFunction(_) =>
                "the image's format doesn't support this atomic operation",
            FunctionError::InvalidImageAtomicValue(_) =>
                "the value of an image atomic is not of the scalar type of the image's format",
            FunctionError::InvalidCall { .. } => "a call of this function is invalid",
            FunctionError::InvalidAtomic(_) => "an atomic operation is invalid",
            FunctionError::InvalidRayQueryExpression(_) => "the ray query is not a local variable",
            FunctionError::InvalidAccelerationStructure(_) =>
                "the expression is not an acceleration structure",
            FunctionError::MissingAccelerationStructureVertexReturn(_, _) =>
                "the ray query (second) returns vertices, and the acceleration structure (first) doesn't",
            FunctionError::MissingRayQueryVertexReturn(_) =>
                "the ray query doesn't return vertices",
            FunctionError::InvalidRayDescriptor(_) =>
                "the expression is not of the module's ray descriptor type",
            FunctionError::InvalidRayQueryType(_) => "the variable is not of the ray query type",
            FunctionError::InvalidHitDistanceType(_) => "the hit distance is not a float",
            FunctionError::MissingCapability(_) =>
                "the target lacks a capability that a statement needs",
            FunctionError::NonUniformControlFlow(_, _, _) =>
                "the expression needs uniform control flow",
            FunctionError::PipelineInputRegularFunction { .. } =>
                "an argument has a binding, and the function is not an entry point",
            FunctionError::PipelineOutputRegularFunction =>
                "the result has a binding, and the function is not an entry point",
            FunctionError::NonUniformWorkgroupUniformLoad(_) =>
                "a workgroup uniform load needs uniform control flow",
            FunctionError::WorkgroupUniformLoadExpressionMismatch(_) =>
                "the result of a workgroup uniform load is not a `WorkGroupUniformLoadResult`",
            FunctionError::WorkgroupUniformLoadInvalidPointer(_) =>
                "a workgroup uniform load reads outside of `WorkGroup`, or another type than its result has",
            FunctionError::InvalidSubgroup(_) =>
                "a subgroup operation or a subgroup barrier is invalid",
            FunctionError::InvalidCooperativeStoreTarget(_) =>
                "the target of a cooperative store is not a cooperative matrix",
            FunctionError::InvalidCooperativeDataPointer(_) =>
                "the data pointer of a cooperative store points to another scalar type than the matrix has",
            FunctionError::EmitResult(_) =>
                "an emit covers the result of another statement, which alone brings it into scope",
            FunctionError::UnvisitedExpression(_) =>
                "no call and no atomic operation of the body has this result",
            FunctionError::InvalidMeshFunctionCall(_) =>
                "a count that a mesh shader sets is not a `u32`",
            FunctionError::ConflictingMeshOutputTypes(_, _) =>
                "a mesh shader has outputs of two types",
            FunctionError::ConflictingTaskPayloadVariables(_, _) =>
                "a function uses two task payloads",
            FunctionError::InvalidMeshShaderOutputType(_) =>
                "an output of a mesh shader is not a struct",
            FunctionError::InvalidPayloadType => "the payload of a ray is not a pointer",
            FunctionError::InvalidPayloadAddressSpace(_) =>
                "the payload of a ray is in this address space, which is not for ray payloads",
            FunctionError::MismatchedPayloadType(_, _) =>
                "the payload of this ray is of the first type, and that of an earlier ray of the second",
            FunctionError::PayloadPointerNotGlobal =>
                "the payload of a ray is not a global variable",
        }
    }

    fn explain<W: fmt::Write>(&self, writer: &mut W) -> fmt::Result {
        writer.write_str(self.sentence())?;
        match self {
            FunctionError::Expression { source, .. }
            | FunctionError::InvalidImageStore(source)
            | FunctionError::InvalidImageAtomic(source) => explain_inside(source, writer),
            FunctionError::LocalVariable { source, .. } => explain_inside(source, writer),
            FunctionError::InvalidCall { error, .. } => explain_inside(error, writer),
            FunctionError::InvalidAtomic(error) => explain_inside(error, writer),
            FunctionError::InvalidSubgroup(error) => explain_inside(error, writer),
            _ => Ok(()),
        }
    }
}
