//! The names of the errors of entry points, and what they print.

ghost use Rattle.std.specs.Prelude.{◌≡◌};
ghost use Rattle.check_faults.specs.EntryErrorNames.{entry_error_name};

use crate::entry::EntryPointError;
use std::fmt;

impl EntryPointError {
    /// The variant's name, as naga has it.
    #[tactic(auto, unfolding(crate::specs::EntryErrorNames::entry_error_name))]
    pub fn name(&self) -> &'static str
        ensures { result.now ≡ entry_error_name self.now }
    {
        match self {
            EntryPointError::Conflict => "Conflict",
            EntryPointError::MissingVertexOutputPosition => "MissingVertexOutputPosition",
            EntryPointError::UnexpectedEarlyDepthTest => "UnexpectedEarlyDepthTest",
            EntryPointError::UnexpectedWorkgroupSize => "UnexpectedWorkgroupSize",
            EntryPointError::OutOfRangeWorkgroupSize => "OutOfRangeWorkgroupSize",
            EntryPointError::ForbiddenStageOperations => "ForbiddenStageOperations",
            EntryPointError::InvalidGlobalUsage(..) => "InvalidGlobalUsage",
            EntryPointError::MoreThanOneImmediateUsed => "MoreThanOneImmediateUsed",
            EntryPointError::BindingCollision(..) => "BindingCollision",
            EntryPointError::Argument(..) => "Argument",
            EntryPointError::Result(..) => "Result",
            EntryPointError::Function(..) => "Function",
            EntryPointError::UnsupportedCapability(..) => "UnsupportedCapability",
            EntryPointError::ExpectedMeshShaderAttributes => "ExpectedMeshShaderAttributes",
            EntryPointError::UnexpectedMeshShaderAttributes => "UnexpectedMeshShaderAttributes",
            EntryPointError::UnexpectedTaskPayload => "UnexpectedTaskPayload",
            EntryPointError::TaskPayloadWrongAddressSpace => "TaskPayloadWrongAddressSpace",
            EntryPointError::WrongTaskPayloadUsed => "WrongTaskPayloadUsed",
            EntryPointError::WrongTaskShaderEntryResult => "WrongTaskShaderEntryResult",
            EntryPointError::ExpectedTaskPayload => "ExpectedTaskPayload",
            EntryPointError::BadMeshOutputVariableType => "BadMeshOutputVariableType",
            EntryPointError::BadMeshOutputVariableField => "BadMeshOutputVariableField",
            EntryPointError::UnexpectedMeshShaderEntryResult => "UnexpectedMeshShaderEntryResult",
            EntryPointError::InvalidMeshOutputType => "InvalidMeshOutputType",
            EntryPointError::InvalidMeshPrimitiveOutputType => "InvalidMeshPrimitiveOutputType",
            EntryPointError::WrongMeshOutputAddressSpace => "WrongMeshOutputAddressSpace",
            EntryPointError::TaskPayloadTooSmall(..) => "TaskPayloadTooSmall",
            EntryPointError::RayPayloadInInvalidStage(..) => "RayPayloadInInvalidStage",
            EntryPointError::IncomingRayPayloadInInvalidStage(..) =>
                "IncomingRayPayloadInInvalidStage",
        }
    }
}

/// Writes the variant's name, but for `RayPayloadInInvalidStage`, of which it writes the stages that are meant.
impl fmt::Display for EntryPointError {
    fn fmt<W: fmt::Write>(&self, f: &mut fmt::Formatter<W>) -> fmt::Result {
        f.write_str(match self {
            EntryPointError::RayPayloadInInvalidStage(_) =>
                "Only the `ray_generation`, `closest_hit`, and `miss` shader stages can access a global variable in the `ray_payload` address space",
            other => other.name(),
        })
    }
}

impl std::error::Error for EntryPointError {}
