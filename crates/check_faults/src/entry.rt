//! The errors of entry points: those of naga 30.0.1's `valid::interface`, with its variants and fields.

ghost use Rattle.std.specs.Prelude.{◌≡◌};
ghost use Rattle.check_faults.specs.declared.entry.EntryPointError.TheVariants as fault;

mod clones;
mod texts;

use ir_arena::handle::Handle;
use ir_arena::tag;
use ir_errors::function::FunctionError;
use ir_errors::interface::VaryingError;
use ir_flags::capabilities::Capabilities;
use ir_flags::valid::GlobalUse;
use ir_leaves::stage::ShaderStage;

/// What is wrong with an entry point: the first fault in the order of its checks.
#[derive(PartialEq, Debug, Drop)]
pub enum EntryPointError {
    /// Two entry points have one name and stage. It is never made here.
    Conflict,
    /// A vertex entry point, or the vertex output of a mesh, has no position.
    MissingVertexOutputPosition,
    /// An early depth test is for the fragment stage only.
    UnexpectedEarlyDepthTest,
    /// A stage without workgroups has a workgroup size.
    UnexpectedWorkgroupSize,
    /// A dimension of the workgroup size is 0, or more than 16384.
    OutOfRangeWorkgroupSize,
    /// The function, or one that it calls, does what this stage doesn't allow.
    ForbiddenStageOperations,
    /// A global has all these uses, and its address space doesn't allow all of them at this stage.
    InvalidGlobalUsage(Handle<tag::GlobalVariable>, GlobalUse),
    /// The entry point uses two globals in `Immediate`.
    MoreThanOneImmediateUsed,
    /// The entry point uses this global, and an earlier one with the same binding.
    BindingCollision(Handle<tag::GlobalVariable>),
    /// An argument, counted from 0, has this fault.
    Argument(u32, VaryingError),
    /// The result, a mesh output or the early depth test has this fault.
    Result(VaryingError),
    /// The function has this fault.
    Function(FunctionError),
    /// The target lacks a capability that the entry point needs.
    UnsupportedCapability(Capabilities),
    /// A mesh entry point has no `mesh_info`.
    ExpectedMeshShaderAttributes,
    /// Only a mesh entry point can have a `mesh_info`.
    UnexpectedMeshShaderAttributes,
    /// An entry point at this stage can't have a task payload.
    UnexpectedTaskPayload,
    /// The task payload is not in `TaskPayload`.
    TaskPayloadWrongAddressSpace,
    /// The entry point uses a global in `TaskPayload` that is not its task payload.
    WrongTaskPayloadUsed,
    /// A task entry point must return a vector of three `u32`.
    WrongTaskShaderEntryResult,
    /// A task entry point has no task payload.
    ExpectedTaskPayload,
    /// The `mesh_info` is not what the type of the output variable implies.
    BadMeshOutputVariableType,
    /// A member of the output variable's type can't be an output of a mesh.
    BadMeshOutputVariableField,
    /// A mesh entry point can't return a value.
    UnexpectedMeshShaderEntryResult,
    /// An output of a mesh is not a struct.
    InvalidMeshOutputType,
    /// The primitive output of a mesh must have exactly one built-in of indices.
    InvalidMeshPrimitiveOutputType,
    /// The output variable of a mesh is not in `WorkGroup`.
    WrongMeshOutputAddressSpace,
    /// The task payload has only this many bytes, and must have at least 4.
    TaskPayloadTooSmall(u32),
    /// A global in `RayPayload` can't be used at this stage.
    RayPayloadInInvalidStage(ShaderStage),
    /// A global in `IncomingRayPayload` can't be used at this stage.
    IncomingRayPayloadInInvalidStage(ShaderStage),
}

impl From<VaryingError> for EntryPointError {
    ghost from_gives = { λ varying error. error ≡ fault.Result varying };

    fn from(varying: VaryingError) -> Self {
        EntryPointError::Result(varying)
    }
}

impl From<FunctionError> for EntryPointError {
    ghost from_gives = { λ function error. error ≡ fault.Function function };

    fn from(function: FunctionError) -> Self {
        EntryPointError::Function(function)
    }
}
