//! The names of the errors of functions, which they print.

ghost use Rattle.std.specs.Prelude.{◌≡◌};
ghost use Rattle.ir_errors.specs.Names.{function_error_name};

use crate::function::FunctionError;
use std::fmt;

impl FunctionError {
    /// The variant's name, as naga has it.
    #[tactic(auto, unfolding(crate::specs::Names::function_error_name))]
    pub fn name(&self) -> &'static str
        ensures { result.now ≡ function_error_name self.now }
    {
        match self {
            FunctionError::Expression { .. } => "Expression",
            FunctionError::ExpressionAlreadyInScope(_) => "ExpressionAlreadyInScope",
            FunctionError::LocalVariable { .. } => "LocalVariable",
            FunctionError::InvalidArgumentType { .. } => "InvalidArgumentType",
            FunctionError::NonConstructibleReturnType => "NonConstructibleReturnType",
            FunctionError::InvalidArgumentPointerSpace { .. } => "InvalidArgumentPointerSpace",
            FunctionError::BreakOutsideOfLoopOrSwitch => "BreakOutsideOfLoopOrSwitch",
            FunctionError::ContinueOutsideOfLoop => "ContinueOutsideOfLoop",
            FunctionError::InvalidReturnSpot => "InvalidReturnSpot",
            FunctionError::InvalidReturnType { .. } => "InvalidReturnType",
            FunctionError::InvalidIfType(_) => "InvalidIfType",
            FunctionError::InvalidSwitchType(_) => "InvalidSwitchType",
            FunctionError::ConflictingSwitchCase(_) => "ConflictingSwitchCase",
            FunctionError::ConflictingCaseType => "ConflictingCaseType",
            FunctionError::MissingDefaultCase => "MissingDefaultCase",
            FunctionError::MultipleDefaultCases => "MultipleDefaultCases",
            FunctionError::LastCaseFallTrough => "LastCaseFallTrough",
            FunctionError::InvalidStorePointer(_) => "InvalidStorePointer",
            FunctionError::InvalidStoreTexture { .. } => "InvalidStoreTexture",
            FunctionError::InvalidStoreValue { .. } => "InvalidStoreValue",
            FunctionError::InvalidStoreTypes { .. } => "InvalidStoreTypes",
            FunctionError::InvalidImageStore(_) => "InvalidImageStore",
            FunctionError::InvalidImageAtomic(_) => "InvalidImageAtomic",
            FunctionError::InvalidImageAtomicFunction(_) => "InvalidImageAtomicFunction",
            FunctionError::InvalidImageAtomicValue(_) => "InvalidImageAtomicValue",
            FunctionError::InvalidCall { .. } => "InvalidCall",
            FunctionError::InvalidAtomic(_) => "InvalidAtomic",
            FunctionError::InvalidRayQueryExpression(_) => "InvalidRayQueryExpression",
            FunctionError::InvalidAccelerationStructure(_) => "InvalidAccelerationStructure",
            FunctionError::MissingAccelerationStructureVertexReturn(_, _) =>
                "MissingAccelerationStructureVertexReturn",
            FunctionError::MissingRayQueryVertexReturn(_) => "MissingRayQueryVertexReturn",
            FunctionError::InvalidRayDescriptor(_) => "InvalidRayDescriptor",
            FunctionError::InvalidRayQueryType(_) => "InvalidRayQueryType",
            FunctionError::InvalidHitDistanceType(_) => "InvalidHitDistanceType",
            FunctionError::MissingCapability(_) => "MissingCapability",
            FunctionError::NonUniformControlFlow(_, _, _) => "NonUniformControlFlow",
            FunctionError::PipelineInputRegularFunction { .. } => "PipelineInputRegularFunction",
            FunctionError::PipelineOutputRegularFunction => "PipelineOutputRegularFunction",
            FunctionError::NonUniformWorkgroupUniformLoad(_) => "NonUniformWorkgroupUniformLoad",
            FunctionError::WorkgroupUniformLoadExpressionMismatch(_) =>
                "WorkgroupUniformLoadExpressionMismatch",
            FunctionError::WorkgroupUniformLoadInvalidPointer(_) =>
                "WorkgroupUniformLoadInvalidPointer",
            FunctionError::InvalidSubgroup(_) => "InvalidSubgroup",
            FunctionError::InvalidCooperativeStoreTarget(_) => "InvalidCooperativeStoreTarget",
            FunctionError::InvalidCooperativeDataPointer(_) => "InvalidCooperativeDataPointer",
            FunctionError::EmitResult(_) => "EmitResult",
            FunctionError::UnvisitedExpression(_) => "UnvisitedExpression",
            FunctionError::InvalidMeshFunctionCall(_) => "InvalidMeshFunctionCall",
            FunctionError::ConflictingMeshOutputTypes(_, _) => "ConflictingMeshOutputTypes",
            FunctionError::ConflictingTaskPayloadVariables(_, _) =>
                "ConflictingTaskPayloadVariables",
            FunctionError::InvalidMeshShaderOutputType(_) => "InvalidMeshShaderOutputType",
            FunctionError::InvalidPayloadType => "InvalidPayloadType",
            FunctionError::InvalidPayloadAddressSpace(_) => "InvalidPayloadAddressSpace",
            FunctionError::MismatchedPayloadType(_, _) => "MismatchedPayloadType",
            FunctionError::PayloadPointerNotGlobal => "PayloadPointerNotGlobal",
        }
    }
}

/// Writes the variant's name.
impl fmt::Display for FunctionError {
    fn fmt<W: fmt::Write>(&self, f: &mut fmt::Formatter<W>) -> fmt::Result {
        f.write_str(self.name())
    }
}

impl std::error::Error for FunctionError {}
