//! Faults of functions.

ghost use Rattle.std.specs.Prelude.{◌≡◌};
ghost use Rattle.json_faults.specs.Faults.{call_error_form, atomic_error_form, subgroup_error_form, local_error_form, function_error_form};
ghost use Rattle.json_faults.specs.JsonForm.{number_form};

use crate::parts::{
    holding, holding_field, holding_pair, holding_three, holding_triple, holding_two,
};
use crate::to_json::ToJson;
use crate::writer::JsonWriter;
use ir_errors::{
    AtomicError, CallError, FunctionError, LocalVariableError, SubgroupError, UniformityDisruptor,
    UniformityRequirements,
};
use std::alloc::AllocError;

impl ToJson for CallError {
    ghost form = { call_error_form };

    #[tactic(auto, unfolding(crate::specs::Faults::call_error_form, crate::specs::Faults::call_error_held, crate::specs::JsonForm::variant))]
    fn write_json(&self, out: &mut JsonWriter) -> Result<(), AllocError> {
        let variant = self.name();
        match self {
            CallError::Argument { index, source } => {
                holding_two(out, &(variant, "index", "source"), index, source)
            }
            CallError::ResultAlreadyInScope(handle) | CallError::ResultAlreadyPopulated(handle) => {
                holding(out, variant, handle)
            }
            CallError::ArgumentCount { required, seen } => {
                holding_two(out, &(variant, "required", "seen"), required, seen)
            }
            CallError::ArgumentType {
                index,
                required,
                seen_expression,
            } => holding_three(
                out,
                &(variant, "index", "required", "seen_expression"),
                index,
                required,
                seen_expression,
            ),
            CallError::ExpressionMismatch(result) => holding(out, variant, result),
        }
    }
}

impl ToJson for AtomicError {
    ghost form = { atomic_error_form };

    #[tactic(auto, unfolding(crate::specs::Faults::atomic_error_form, crate::specs::Faults::atomic_error_held, crate::specs::JsonForm::variant))]
    fn write_json(&self, out: &mut JsonWriter) -> Result<(), AllocError> {
        let variant = self.name();
        match self {
            AtomicError::InvalidPointer(handle)
            | AtomicError::InvalidOperand(handle)
            | AtomicError::InvalidResultExpression(handle)
            | AtomicError::ResultExpressionExchange(handle)
            | AtomicError::ResultExpressionNotExchange(handle)
            | AtomicError::ResultTypeMismatch(handle)
            | AtomicError::ResultAlreadyPopulated(handle) => holding(out, variant, handle),
            AtomicError::InvalidAddressSpace(space) => holding(out, variant, space),
            AtomicError::InvalidOperator(function) => holding(out, variant, function),
            AtomicError::MissingReturnValue => out.string(variant),
            AtomicError::MissingCapability(capabilities) => holding(out, variant, capabilities),
        }
    }
}

impl ToJson for SubgroupError {
    ghost form = { subgroup_error_form };

    #[tactic(auto, unfolding(crate::specs::Faults::subgroup_error_form, crate::specs::Faults::subgroup_error_held, crate::specs::JsonForm::variant))]
    fn write_json(&self, out: &mut JsonWriter) -> Result<(), AllocError> {
        let variant = self.name();
        match self {
            SubgroupError::InvalidOperand(handle)
            | SubgroupError::ResultTypeMismatch(handle)
            | SubgroupError::InvalidInvocationIdExprType(handle) => holding(out, variant, handle),
            SubgroupError::UnsupportedOperation(operations) => holding(out, variant, operations),
            SubgroupError::UnknownOperation => out.string(variant),
        }
    }
}

impl ToJson for LocalVariableError {
    ghost form = { local_error_form };

    #[tactic(auto, unfolding(crate::specs::Faults::local_error_form, crate::specs::Faults::local_error_held, crate::specs::JsonForm::variant))]
    fn write_json(&self, out: &mut JsonWriter) -> Result<(), AllocError> {
        let variant = self.name();
        match self {
            LocalVariableError::InvalidType(ty) => holding(out, variant, ty),
            LocalVariableError::InitializerType
            | LocalVariableError::NonConstOrOverrideInitializer => out.string(variant),
        }
    }
}

impl ToJson for FunctionError {
    ghost form = { function_error_form };

    #[tactic(auto, unfolding(crate::specs::Faults::function_error_form, crate::specs::Faults::function_error_held, crate::specs::JsonForm::variant))]
    fn write_json(&self, out: &mut JsonWriter) -> Result<(), AllocError> {
        let variant = self.name();
        match self {
            FunctionError::NonConstructibleReturnType
            | FunctionError::BreakOutsideOfLoopOrSwitch
            | FunctionError::ContinueOutsideOfLoop
            | FunctionError::InvalidReturnSpot
            | FunctionError::ConflictingCaseType
            | FunctionError::MissingDefaultCase
            | FunctionError::MultipleDefaultCases
            | FunctionError::LastCaseFallTrough
            | FunctionError::PipelineOutputRegularFunction
            | FunctionError::InvalidPayloadType
            | FunctionError::PayloadPointerNotGlobal => out.string(variant),
            FunctionError::ExpressionAlreadyInScope(handle)
            | FunctionError::InvalidIfType(handle)
            | FunctionError::InvalidSwitchType(handle)
            | FunctionError::InvalidStorePointer(handle)
            | FunctionError::InvalidImageAtomicValue(handle)
            | FunctionError::InvalidRayQueryExpression(handle)
            | FunctionError::InvalidAccelerationStructure(handle)
            | FunctionError::MissingRayQueryVertexReturn(handle)
            | FunctionError::InvalidRayDescriptor(handle)
            | FunctionError::InvalidHitDistanceType(handle)
            | FunctionError::WorkgroupUniformLoadExpressionMismatch(handle)
            | FunctionError::WorkgroupUniformLoadInvalidPointer(handle)
            | FunctionError::InvalidCooperativeStoreTarget(handle)
            | FunctionError::InvalidCooperativeDataPointer(handle)
            | FunctionError::EmitResult(handle)
            | FunctionError::UnvisitedExpression(handle)
            | FunctionError::InvalidMeshFunctionCall(handle)
            | FunctionError::InvalidMeshShaderOutputType(handle) => holding(out, variant, handle),
            FunctionError::Expression { handle, source } => holding_two(
                out,
                &(variant, "handle", "source"),
                handle,
                source,
            ),
            FunctionError::LocalVariable {
                handle,
                name,
                source,
            } => holding_three(
                out,
                &(variant, "handle", "name", "source"),
                handle,
                name,
                source,
            ),
            FunctionError::InvalidArgumentType { index, name } => holding_two(
                out,
                &(variant, "index", "name"),
                index,
                name,
            ),
            FunctionError::InvalidArgumentPointerSpace { index, name, space } => holding_three(
                out,
                &(variant, "index", "name", "space"),
                index,
                name,
                space,
            ),
            FunctionError::InvalidReturnType {
                expression,
                expected_ty,
            } => holding_two(
                out,
                &(variant, "expression", "expected_ty"),
                expression,
                expected_ty,
            ),
            FunctionError::ConflictingSwitchCase(value) => holding(out, variant, value),
            FunctionError::InvalidStoreTexture { actual, actual_ty } => holding_two(
                out,
                &(variant, "actual", "actual_ty"),
                actual,
                actual_ty,
            ),
            FunctionError::InvalidStoreValue {
                actual,
                actual_ty,
                expected_ty,
            } => holding_three(
                out,
                &(variant, "actual", "actual_ty", "expected_ty"),
                actual,
                actual_ty,
                expected_ty,
            ),
            FunctionError::InvalidStoreTypes { pointer, value } => holding_two(
                out,
                &(variant, "pointer", "value"),
                pointer,
                value,
            ),
            FunctionError::InvalidImageStore(error) | FunctionError::InvalidImageAtomic(error) =>
                holding(out, variant, error),
            FunctionError::InvalidImageAtomicFunction(function) => holding(out, variant, function),
            FunctionError::InvalidCall { function, error } => holding_two(
                out,
                &(variant, "function", "error"),
                function,
                error,
            ),
            FunctionError::InvalidAtomic(error) => holding(out, variant, error),
            FunctionError::MissingAccelerationStructureVertexReturn(first, second) => holding_pair(
                out, variant, first, second,
            ),
            FunctionError::InvalidRayQueryType(ty) => holding(out, variant, ty),
            FunctionError::MissingCapability(capabilities) => holding(out, variant, capabilities),
            FunctionError::NonUniformControlFlow(requirements, handle, disruptor) => holding_triple(
                out,
                variant,
                requirements,
                handle,
                disruptor,
            ),
            FunctionError::PipelineInputRegularFunction { name } => holding_field(
                out,
                &(variant, "name"),
                name,
            ),
            FunctionError::NonUniformWorkgroupUniformLoad(disruptor) => holding(
                out, variant, disruptor,
            ),
            FunctionError::InvalidSubgroup(error) => holding(out, variant, error),
            FunctionError::ConflictingMeshOutputTypes(first, second) => holding_pair(
                out, variant, first, second,
            ),
            FunctionError::ConflictingTaskPayloadVariables(first, second) => holding_pair(
                out, variant, first, second,
            ),
            FunctionError::InvalidPayloadAddressSpace(space) => holding(out, variant, space),
            FunctionError::MismatchedPayloadType(ty, earlier) => holding_pair(
                out, variant, ty, earlier,
            ),
        }
    }
}
