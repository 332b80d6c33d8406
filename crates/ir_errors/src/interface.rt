//! The errors of global variables, and of inputs and outputs of a stage: those of naga 30.0.1's `valid::interface`,
//! with its variants and fields.

mod clones;
mod texts;

use ir_arena::handle::Handle;
use ir_arena::tag;
use ir_flags::capabilities::Capabilities;
use ir_flags::valid::TypeFlags;
use ir_leaves::bindings::{Interpolation, Sampling};
use ir_leaves::built_in::BuiltIn;
use ir_leaves::stage::ShaderStage;
use ir_types::type_info::{Disalignment, ImmediateError};
use ir_types::types::{AddressSpace, TypeInner};

/// What is wrong with a global variable.
#[derive(Clone, Copy, PartialEq, Debug)]
pub enum GlobalVariableError {
    /// A global of this type can't be in this address space.
    InvalidUsage(AddressSpace),
    /// Only images, samplers, acceleration structures and ray queries can be in this address space.
    InvalidType(AddressSpace),
    /// The type can't be in a binding array. It is never made here.
    InvalidBindingArray(Handle<tag::Type>),
    /// The type lacks flags that the address space needs.
    MissingTypeFlags {
        required: TypeFlags,
        seen: TypeFlags,
    },
    /// The target lacks a capability that the global needs.
    UnsupportedCapability(Capabilities),
    /// A global must have a binding exactly if it is in `Storage`, `Uniform` or `Handle`.
    InvalidBinding,
    /// The layout of the type isn't valid in this address space, because of this inner type.
    Alignment(AddressSpace, Handle<tag::Type>, Disalignment),
    /// The initializer must be a constant or an override expression.
    InitializerExprType,
    /// The initializer is of another type than the variable.
    InitializerType,
    /// A global in this address space can't have an initializer.
    InitializerNotAllowed(AddressSpace),
    /// A global in `Storage` can't be write-only.
    StorageAddressSpaceWriteOnlyNotSupported,
    /// The type can't be that of an immediate.
    InvalidImmediateType(ImmediateError),
    /// A task payload has a size of 0 bytes.
    ZeroSizedTaskPayload,
    /// Only a global in `Storage` can have memory decorations.
    InvalidMemoryDecorationsAddressSpace,
    /// The target doesn't support coherent memory.
    CoherentNotSupported,
    /// The target doesn't support volatile memory.
    VolatileNotSupported,
}

/// What is wrong with an input or an output of a stage.
#[derive(PartialEq, Debug, Drop)]
pub enum VaryingError {
    /// An input or output at a location can't be of this type.
    InvalidType(Handle<tag::Type>),
    /// The type can't be shared between stages.
    NotIOShareableType(Handle<tag::Type>),
    /// The interpolation is for this stage only.
    InvalidInterpolationInStage(Interpolation, ShaderStage),
    /// The interpolation can't be combined with the sampling.
    InvalidInterpolationSamplingCombination {
        interpolation: Interpolation,
        sampling: Sampling,
    },
    /// An integer must have the interpolation `Flat` here.
    InvalidInterpolationForInteger,
    /// A float must have an interpolation here.
    MissingInterpolation,
    /// The built-in doesn't exist at this stage in this direction.
    InvalidBuiltInStage(BuiltIn),
    /// The built-in can't be of this type, which is the given one.
    InvalidBuiltInType(BuiltIn, TypeInner),
    /// An argument or a result that is not a struct must have a binding.
    MissingBinding,
    /// The member of a struct with this index, counted from 0, has no binding.
    MemberMissingBinding(u32),
    /// Two inputs or two outputs have this location.
    BindingCollision {
        location: u32,
    },
    /// Two members have this blend source. It is never made here.
    BindingCollisionBlendSrc {
        blend_src: u32,
    },
    /// Two inputs or two outputs have this built-in.
    DuplicateBuiltIn(BuiltIn),
    /// The target lacks a capability that the input or output needs.
    UnsupportedCapability(Capabilities),
    /// The attribute is for outputs of this stage only.
    InvalidInputAttributeInStage(&'static str, ShaderStage),
    /// The attribute is not for this stage.
    InvalidAttributeInStage(&'static str, ShaderStage),
    /// A blend source must be at location 0, and must be 0 or 1. It is never made here.
    InvalidBlendSrcIndex {
        location: u32,
        blend_src: u32,
    },
    /// Only one of the two blend sources is there. It is never made here.
    IncompleteBlendSrcUsage {
        present_blend_src: u32,
    },
    /// Blend sources can't be combined with other locations. It is never made here.
    InvalidBlendSrcWithOtherBindings {
        location: u32,
    },
    /// The two blend sources are of different types. It is never made here.
    BlendSrcOutputTypeMismatch {
        blend_src_0_type: Handle<tag::Type>,
        blend_src_1_type: Handle<tag::Type>,
    },
    /// A blend source is not on a member of a struct.
    BlendSrcNotOnStructMember,
    /// The built-in needs a workgroup of one dimension.
    InvalidMultiDimensionalSubgroupBuiltIn,
    /// Only primitive outputs of a mesh and fragment inputs can be per primitive.
    InvalidPerPrimitive,
    /// A primitive output of a mesh must be per primitive.
    MissingPerPrimitive,
    /// A per-vertex input must be an array of 3.
    PerVertexNotArrayOfThree,
    /// A per-vertex input must have the sampling `Center`, or none.
    InvalidPerVertexSampling,
}
