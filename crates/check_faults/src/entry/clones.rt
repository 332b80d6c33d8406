//! Clones of the errors of entry points.

ghost use Rattle.std.specs.Prelude.{◌≡◌, IfOk};

use crate::entry::EntryPointError;
use std::alloc::{AllocError, Global};

impl EntryPointError {
    /// An equal error. An Err is out of memory.
    pub fn clone(&self, alloc: Global) -> Result<Self, AllocError>
        ensures { IfOk result (λ made. made ≡ self.now) }
    {
        Ok(match self {
            EntryPointError::Conflict => EntryPointError::Conflict,
            EntryPointError::MissingVertexOutputPosition =>
                EntryPointError::MissingVertexOutputPosition,
            EntryPointError::UnexpectedEarlyDepthTest => EntryPointError::UnexpectedEarlyDepthTest,
            EntryPointError::UnexpectedWorkgroupSize => EntryPointError::UnexpectedWorkgroupSize,
            EntryPointError::OutOfRangeWorkgroupSize => EntryPointError::OutOfRangeWorkgroupSize,
            EntryPointError::ForbiddenStageOperations => EntryPointError::ForbiddenStageOperations,
            EntryPointError::InvalidGlobalUsage(global, uses) =>
                EntryPointError::InvalidGlobalUsage(*global, *uses),
            EntryPointError::MoreThanOneImmediateUsed => EntryPointError::MoreThanOneImmediateUsed,
            EntryPointError::BindingCollision(global) => EntryPointError::BindingCollision(*global),
            EntryPointError::Argument(index, varying) => EntryPointError::Argument(
                *index,
                varying.clone(alloc)?,
            ),
            EntryPointError::Result(varying) => EntryPointError::Result(varying.clone(alloc)?),
            EntryPointError::Function(function) => EntryPointError::Function(function.clone(
                alloc,
            )?),
            EntryPointError::UnsupportedCapability(capabilities) =>
                EntryPointError::UnsupportedCapability(*capabilities),
            EntryPointError::ExpectedMeshShaderAttributes =>
                EntryPointError::ExpectedMeshShaderAttributes,
            EntryPointError::UnexpectedMeshShaderAttributes =>
                EntryPointError::UnexpectedMeshShaderAttributes,
            EntryPointError::UnexpectedTaskPayload => EntryPointError::UnexpectedTaskPayload,
            EntryPointError::TaskPayloadWrongAddressSpace =>
                EntryPointError::TaskPayloadWrongAddressSpace,
            EntryPointError::WrongTaskPayloadUsed => EntryPointError::WrongTaskPayloadUsed,
            EntryPointError::WrongTaskShaderEntryResult =>
                EntryPointError::WrongTaskShaderEntryResult,
            EntryPointError::ExpectedTaskPayload => EntryPointError::ExpectedTaskPayload,
            EntryPointError::BadMeshOutputVariableType =>
                EntryPointError::BadMeshOutputVariableType,
            EntryPointError::BadMeshOutputVariableField =>
                EntryPointError::BadMeshOutputVariableField,
            EntryPointError::UnexpectedMeshShaderEntryResult =>
                EntryPointError::UnexpectedMeshShaderEntryResult,
            EntryPointError::InvalidMeshOutputType => EntryPointError::InvalidMeshOutputType,
            EntryPointError::InvalidMeshPrimitiveOutputType =>
                EntryPointError::InvalidMeshPrimitiveOutputType,
            EntryPointError::WrongMeshOutputAddressSpace =>
                EntryPointError::WrongMeshOutputAddressSpace,
            EntryPointError::TaskPayloadTooSmall(size) => EntryPointError::TaskPayloadTooSmall(
                *size,
            ),
            EntryPointError::RayPayloadInInvalidStage(stage) =>
                EntryPointError::RayPayloadInInvalidStage(*stage),
            EntryPointError::IncomingRayPayloadInInvalidStage(stage) =>
                EntryPointError::IncomingRayPayloadInInvalidStage(*stage),
        })
    }
}
