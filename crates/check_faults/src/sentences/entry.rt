//! What is wrong with an entry point, in words for a person.

use crate::entry::EntryPointError;
use crate::sentences::{Explain, explain_inside};
use std::fmt;

impl Explain for EntryPointError {
    fn sentence(&self) -> &'static str {
        match self {
            EntryPointError::Conflict => "two entry points have one name and stage",
            EntryPointError::MissingVertexOutputPosition =>
                "a vertex entry point, or the vertex output of a mesh, has no position",
            EntryPointError::UnexpectedEarlyDepthTest =>
                "an early depth test is for the fragment stage only",
            EntryPointError::UnexpectedWorkgroupSize =>
                "a stage without workgroups has a workgroup size",
            EntryPointError::OutOfRangeWorkgroupSize =>
                "a dimension of the workgroup size is 0, or more than 16384",
            EntryPointError::ForbiddenStageOperations =>
                "the function, or one that it calls, does what this stage doesn't allow",
            EntryPointError::InvalidGlobalUsage(_, _) =>
                "a global is used in ways that its address space doesn't allow at this stage",
            EntryPointError::MoreThanOneImmediateUsed =>
                "the entry point uses two globals in `Immediate`",
            EntryPointError::BindingCollision(_) =>
                "the entry point uses an earlier global that has the binding of this one",
            EntryPointError::Argument(_, _) => "an argument, counted from 0, is invalid",
            EntryPointError::Result(_) =>
                "the result, a mesh output or the early depth test is invalid",
            EntryPointError::Function(_) => "the function is invalid",
            EntryPointError::UnsupportedCapability(_) =>
                "the target lacks a capability that the entry point needs",
            EntryPointError::ExpectedMeshShaderAttributes =>
                "a mesh entry point has no `mesh_info`",
            EntryPointError::UnexpectedMeshShaderAttributes =>
                "only a mesh entry point can have a `mesh_info`",
            EntryPointError::UnexpectedTaskPayload =>
                "an entry point at this stage can't have a task payload",
            EntryPointError::TaskPayloadWrongAddressSpace =>
                "the task payload is not in `TaskPayload`",
            EntryPointError::WrongTaskPayloadUsed =>
                "the entry point uses a global in `TaskPayload` that is not its task payload",
            EntryPointError::WrongTaskShaderEntryResult =>
                "a task entry point must return a vector of three `u32`",
            EntryPointError::ExpectedTaskPayload => "a task entry point has no task payload",
            EntryPointError::BadMeshOutputVariableType =>
                "the `mesh_info` is not what the type of the output variable implies",
            EntryPointError::BadMeshOutputVariableField =>
                "a member of the output variable's type can't be an output of a mesh",
            EntryPointError::UnexpectedMeshShaderEntryResult =>
                "a mesh entry point can't return a value",
            EntryPointError::InvalidMeshOutputType => "an output of a mesh is not a struct",
            EntryPointError::InvalidMeshPrimitiveOutputType =>
                "the primitive output of a mesh must have exactly one built-in of indices",
            EntryPointError::WrongMeshOutputAddressSpace =>
                "the output variable of a mesh is not in `WorkGroup`",
            EntryPointError::TaskPayloadTooSmall(_) =>
                "the task payload has only so many bytes, and must have at least 4",
            EntryPointError::RayPayloadInInvalidStage(_) =>
                "a global in `RayPayload` can't be used at this stage",
            EntryPointError::IncomingRayPayloadInInvalidStage(_) =>
                "a global in `IncomingRayPayload` can't be used at this stage",
        }
    }

    fn explain<W: fmt::Write>(&self, writer: &mut W) -> fmt::Result {
        writer.write_str(self.sentence())?;
        match self {
            EntryPointError::Argument(_, varying) | EntryPointError::Result(varying) =>
                explain_inside(varying, writer),
            EntryPointError::Function(function) => explain_inside(function, writer),
            _ => Ok(()),
        }
    }
}
