//! Faults of globals, of inputs and outputs, and of entry points.

ghost use Rattle.std.specs.Prelude.{◌≡◌};
ghost use Rattle.json_faults.specs.Interfaces.{global_error_form, varying_error_form, entry_error_form};

use crate::parts::{holding, holding_field, holding_pair, holding_triple, holding_two};
use crate::to_json::ToJson;
use crate::writer::JsonWriter;
use check_faults::entry::EntryPointError;
use ir_errors::{GlobalVariableError, VaryingError};
use std::alloc::AllocError;

impl ToJson for GlobalVariableError {
    ghost form = { global_error_form };

    #[tactic(auto, unfolding(crate::specs::Interfaces::global_error_form, crate::specs::Interfaces::global_error_held, crate::specs::JsonForm::variant))]
    fn write_json(&self, out: &mut JsonWriter) -> Result<(), AllocError> {
        let variant = self.name();
        match self {
            GlobalVariableError::InvalidUsage(space)
            | GlobalVariableError::InvalidType(space)
            | GlobalVariableError::InitializerNotAllowed(space) => holding(out, variant, space),
            GlobalVariableError::InvalidBindingArray(ty) => holding(out, variant, ty),
            GlobalVariableError::MissingTypeFlags { required, seen } => holding_two(
                out,
                &(variant, "required", "seen"),
                required,
                seen,
            ),
            GlobalVariableError::UnsupportedCapability(capabilities) => holding(
                out,
                variant,
                capabilities,
            ),
            GlobalVariableError::InvalidBinding
            | GlobalVariableError::InitializerExprType
            | GlobalVariableError::InitializerType
            | GlobalVariableError::StorageAddressSpaceWriteOnlyNotSupported
            | GlobalVariableError::ZeroSizedTaskPayload
            | GlobalVariableError::InvalidMemoryDecorationsAddressSpace
            | GlobalVariableError::CoherentNotSupported
            | GlobalVariableError::VolatileNotSupported => out.string(variant),
            GlobalVariableError::Alignment(space, ty, disalignment) => holding_triple(
                out,
                variant,
                space,
                ty,
                disalignment,
            ),
            GlobalVariableError::InvalidImmediateType(error) => holding(out, variant, error),
        }
    }
}

impl ToJson for VaryingError {
    ghost form = { varying_error_form };

    #[tactic(auto, unfolding(crate::specs::Interfaces::varying_error_form, crate::specs::Interfaces::varying_error_held, crate::specs::JsonForm::variant))]
    fn write_json(&self, out: &mut JsonWriter) -> Result<(), AllocError> {
        let variant = self.name();
        match self {
            VaryingError::InvalidType(ty) | VaryingError::NotIOShareableType(ty) => holding(
                out, variant, ty,
            ),
            VaryingError::InvalidInterpolationInStage(interpolation, stage) => holding_pair(
                out,
                variant,
                interpolation,
                stage,
            ),
            VaryingError::InvalidInterpolationSamplingCombination {
                interpolation,
                sampling,
            } => holding_two(
                out,
                &(variant, "interpolation", "sampling"),
                interpolation,
                sampling,
            ),
            VaryingError::InvalidInterpolationForInteger
            | VaryingError::MissingInterpolation
            | VaryingError::MissingBinding
            | VaryingError::BlendSrcNotOnStructMember
            | VaryingError::InvalidMultiDimensionalSubgroupBuiltIn
            | VaryingError::InvalidPerPrimitive
            | VaryingError::MissingPerPrimitive
            | VaryingError::PerVertexNotArrayOfThree
            | VaryingError::InvalidPerVertexSampling => out.string(variant),
            VaryingError::InvalidBuiltInStage(built_in)
            | VaryingError::DuplicateBuiltIn(built_in) => holding(out, variant, built_in),
            VaryingError::InvalidBuiltInType(built_in, ty) => holding_pair(
                out, variant, built_in, ty,
            ),
            VaryingError::MemberMissingBinding(index) => holding(out, variant, index),
            VaryingError::BindingCollision { location }
            | VaryingError::InvalidBlendSrcWithOtherBindings { location } => holding_field(
                out,
                &(variant, "location"),
                location,
            ),
            VaryingError::BindingCollisionBlendSrc { blend_src } => holding_field(
                out,
                &(variant, "blend_src"),
                blend_src,
            ),
            VaryingError::UnsupportedCapability(capabilities) => holding(
                out,
                variant,
                capabilities,
            ),
            VaryingError::InvalidInputAttributeInStage(attribute, stage)
            | VaryingError::InvalidAttributeInStage(attribute, stage) => holding_pair(
                out, variant, attribute, stage,
            ),
            VaryingError::InvalidBlendSrcIndex {
                location,
                blend_src,
            } => holding_two(
                out,
                &(variant, "location", "blend_src"),
                location,
                blend_src,
            ),
            VaryingError::IncompleteBlendSrcUsage { present_blend_src } => holding_field(
                out,
                &(variant, "present_blend_src"),
                present_blend_src,
            ),
            VaryingError::BlendSrcOutputTypeMismatch {
                blend_src_0_type,
                blend_src_1_type,
            } => holding_two(
                out,
                &(variant, "blend_src_0_type", "blend_src_1_type"),
                blend_src_0_type,
                blend_src_1_type,
            ),
        }
    }
}

impl ToJson for EntryPointError {
    ghost form = { entry_error_form };

    #[tactic(auto, unfolding(crate::specs::Interfaces::entry_error_form, crate::specs::Interfaces::entry_error_held, crate::specs::JsonForm::variant))]
    fn write_json(&self, out: &mut JsonWriter) -> Result<(), AllocError> {
        let variant = self.name();
        match self {
            EntryPointError::Conflict
            | EntryPointError::MissingVertexOutputPosition
            | EntryPointError::UnexpectedEarlyDepthTest
            | EntryPointError::UnexpectedWorkgroupSize
            | EntryPointError::OutOfRangeWorkgroupSize
            | EntryPointError::ForbiddenStageOperations
            | EntryPointError::MoreThanOneImmediateUsed
            | EntryPointError::ExpectedMeshShaderAttributes
            | EntryPointError::UnexpectedMeshShaderAttributes
            | EntryPointError::UnexpectedTaskPayload
            | EntryPointError::TaskPayloadWrongAddressSpace
            | EntryPointError::WrongTaskPayloadUsed
            | EntryPointError::WrongTaskShaderEntryResult
            | EntryPointError::ExpectedTaskPayload
            | EntryPointError::BadMeshOutputVariableType
            | EntryPointError::BadMeshOutputVariableField
            | EntryPointError::UnexpectedMeshShaderEntryResult
            | EntryPointError::InvalidMeshOutputType
            | EntryPointError::InvalidMeshPrimitiveOutputType
            | EntryPointError::WrongMeshOutputAddressSpace => out.string(variant),
            EntryPointError::InvalidGlobalUsage(global, used) => holding_pair(
                out, variant, global, used,
            ),
            EntryPointError::BindingCollision(global) => holding(out, variant, global),
            EntryPointError::Argument(index, error) => holding_pair(out, variant, index, error),
            EntryPointError::Result(error) => holding(out, variant, error),
            EntryPointError::Function(error) => holding(out, variant, error),
            EntryPointError::UnsupportedCapability(capabilities) => holding(
                out,
                variant,
                capabilities,
            ),
            EntryPointError::TaskPayloadTooSmall(size) => holding(out, variant, size),
            EntryPointError::RayPayloadInInvalidStage(stage)
            | EntryPointError::IncomingRayPayloadInInvalidStage(stage) => holding(
                out, variant, stage,
            ),
        }
    }
}
