//! Errors of globals, of inputs and outputs, and of meshes.

use crate::sentences::Explain;
use ir_errors::interface::{GlobalVariableError, VaryingError};
use ir_errors::mesh::MeshFault;

impl Explain for GlobalVariableError {
    fn sentence(&self) -> &'static str {
        match self {
            GlobalVariableError::InvalidUsage(_) =>
                "a global of this type can't be in this address space",
            GlobalVariableError::InvalidType(_) =>
                "only images, samplers, acceleration structures and ray queries can be in this address space",
            GlobalVariableError::InvalidBindingArray(_) => "the type can't be in a binding array",
            GlobalVariableError::MissingTypeFlags { .. } =>
                "the type lacks flags that the address space needs",
            GlobalVariableError::UnsupportedCapability(_) =>
                "the target lacks a capability that the global needs",
            GlobalVariableError::InvalidBinding =>
                "a global must have a binding exactly if it is in `Storage`, `Uniform` or `Handle`",
            GlobalVariableError::Alignment(_, _, _) =>
                "the layout of the type isn't valid in this address space, because of this inner type",
            GlobalVariableError::InitializerExprType =>
                "the initializer must be a constant or an override expression",
            GlobalVariableError::InitializerType =>
                "the initializer is of another type than the variable",
            GlobalVariableError::InitializerNotAllowed(_) =>
                "a global in this address space can't have an initializer",
            GlobalVariableError::StorageAddressSpaceWriteOnlyNotSupported =>
                "a global in `Storage` can't be write-only",
            GlobalVariableError::InvalidImmediateType(_) =>
                "the type can't be that of an immediate",
            GlobalVariableError::ZeroSizedTaskPayload => "a task payload has a size of 0 bytes",
            GlobalVariableError::InvalidMemoryDecorationsAddressSpace =>
                "only a global in `Storage` can have memory decorations",
            GlobalVariableError::CoherentNotSupported =>
                "the target doesn't support coherent memory",
            GlobalVariableError::VolatileNotSupported =>
                "the target doesn't support volatile memory",
        }
    }
}

impl Explain for VaryingError {
    fn sentence(&self) -> &'static str {
        match self {
            VaryingError::InvalidType(_) =>
                "an input or output at a location can't be of this type",
            VaryingError::NotIOShareableType(_) => "the type can't be shared between stages",
            VaryingError::InvalidInterpolationInStage(_, _) =>
                "the interpolation is for this stage only",
            VaryingError::InvalidInterpolationSamplingCombination { .. } =>
                "the interpolation can't be combined with the sampling",
            VaryingError::InvalidInterpolationForInteger =>
                "an integer must have the interpolation `Flat` here",
            VaryingError::MissingInterpolation => "a float must have an interpolation here",
            VaryingError::InvalidBuiltInStage(_) =>
                "the built-in doesn't exist at this stage in this direction",
            VaryingError::InvalidBuiltInType(_, _) => "the built-in can't be of this type",
            VaryingError::MissingBinding =>
                "an argument or a result that is not a struct must have a binding",
            VaryingError::MemberMissingBinding(_) =>
                "this member of a struct, counted from 0, has no binding",
            VaryingError::BindingCollision { .. } => "two inputs or two outputs have this location",
            VaryingError::BindingCollisionBlendSrc { .. } => "two members have this blend source",
            VaryingError::DuplicateBuiltIn(_) => "two inputs or two outputs have this built-in",
            VaryingError::UnsupportedCapability(_) =>
                "the target lacks a capability that the input or output needs",
            VaryingError::InvalidInputAttributeInStage(_, _) =>
                "the attribute is for outputs of this stage only",
            VaryingError::InvalidAttributeInStage(_, _) => "the attribute is not for this stage",
            VaryingError::InvalidBlendSrcIndex { .. } =>
                "a blend source must be at location 0, and must be 0 or 1",
            VaryingError::IncompleteBlendSrcUsage { .. } =>
                "only one of the two blend sources is there",
            VaryingError::InvalidBlendSrcWithOtherBindings { .. } =>
                "blend sources can't be combined with other locations",
            VaryingError::BlendSrcOutputTypeMismatch { .. } =>
                "the two blend sources are of different types",
            VaryingError::BlendSrcNotOnStructMember =>
                "a blend source is not on a member of a struct",
            VaryingError::InvalidMultiDimensionalSubgroupBuiltIn =>
                "the built-in needs a workgroup of one dimension",
            VaryingError::InvalidPerPrimitive =>
                "only primitive outputs of a mesh and fragment inputs can be per primitive",
            VaryingError::MissingPerPrimitive =>
                "a primitive output of a mesh must be per primitive",
            VaryingError::PerVertexNotArrayOfThree => "a per-vertex input must be an array of 3",
            VaryingError::InvalidPerVertexSampling =>
                "a per-vertex input must have the sampling `Center`, or none",
        }
    }
}

impl Explain for MeshFault {
    fn sentence(&self) -> &'static str {
        match self {
            MeshFault::OutputType => "the type can't be that of a mesh shader's output",
            MeshFault::OutputField => "a member of the type can't be an output of a mesh shader",
        }
    }
}
