//! Clones of the errors of a stage's inputs and outputs.

ghost use Rattle.std.specs.Prelude.{◌≡◌, IfOk};

use crate::interface::VaryingError;
use std::alloc::{AllocError, Global};

impl VaryingError {
    /// Clones the error. An Err is out of memory.
    pub fn clone(&self, alloc: Global) -> Result<Self, AllocError>
        ensures { IfOk result (λ made. made ≡ self.now) }
    {
        Ok(match self {
            VaryingError::InvalidType(ty) => VaryingError::InvalidType(*ty),
            VaryingError::NotIOShareableType(ty) => VaryingError::NotIOShareableType(*ty),
            VaryingError::InvalidInterpolationInStage(interpolation, stage) =>
                VaryingError::InvalidInterpolationInStage(*interpolation, *stage),
            VaryingError::InvalidInterpolationSamplingCombination {
                interpolation,
                sampling,
            } => VaryingError::InvalidInterpolationSamplingCombination {
                interpolation: *interpolation,
                sampling: *sampling,
            },
            VaryingError::InvalidInterpolationForInteger =>
                VaryingError::InvalidInterpolationForInteger,
            VaryingError::MissingInterpolation => VaryingError::MissingInterpolation,
            VaryingError::InvalidBuiltInStage(built_in) => VaryingError::InvalidBuiltInStage(
                *built_in,
            ),
            VaryingError::InvalidBuiltInType(built_in, inner) => VaryingError::InvalidBuiltInType(
                *built_in,
                inner.clone(alloc)?,
            ),
            VaryingError::MissingBinding => VaryingError::MissingBinding,
            VaryingError::MemberMissingBinding(member) => VaryingError::MemberMissingBinding(
                *member,
            ),
            VaryingError::BindingCollision { location } => VaryingError::BindingCollision {
                location: *location,
            },
            VaryingError::BindingCollisionBlendSrc { blend_src } =>
                VaryingError::BindingCollisionBlendSrc {
                    blend_src: *blend_src,
                },
            VaryingError::DuplicateBuiltIn(built_in) => VaryingError::DuplicateBuiltIn(*built_in),
            VaryingError::UnsupportedCapability(capabilities) =>
                VaryingError::UnsupportedCapability(*capabilities),
            VaryingError::InvalidInputAttributeInStage(attribute, stage) =>
                VaryingError::InvalidInputAttributeInStage(*attribute, *stage),
            VaryingError::InvalidAttributeInStage(attribute, stage) =>
                VaryingError::InvalidAttributeInStage(*attribute, *stage),
            VaryingError::InvalidBlendSrcIndex {
                location,
                blend_src,
            } => VaryingError::InvalidBlendSrcIndex {
                location: *location,
                blend_src: *blend_src,
            },
            VaryingError::IncompleteBlendSrcUsage { present_blend_src } =>
                VaryingError::IncompleteBlendSrcUsage {
                    present_blend_src: *present_blend_src,
                },
            VaryingError::InvalidBlendSrcWithOtherBindings { location } =>
                VaryingError::InvalidBlendSrcWithOtherBindings {
                    location: *location,
                },
            VaryingError::BlendSrcOutputTypeMismatch {
                blend_src_0_type,
                blend_src_1_type,
            } => VaryingError::BlendSrcOutputTypeMismatch {
                blend_src_0_type: *blend_src_0_type,
                blend_src_1_type: *blend_src_1_type,
            },
            VaryingError::BlendSrcNotOnStructMember => VaryingError::BlendSrcNotOnStructMember,
            VaryingError::InvalidMultiDimensionalSubgroupBuiltIn =>
                VaryingError::InvalidMultiDimensionalSubgroupBuiltIn,
            VaryingError::InvalidPerPrimitive => VaryingError::InvalidPerPrimitive,
            VaryingError::MissingPerPrimitive => VaryingError::MissingPerPrimitive,
            VaryingError::PerVertexNotArrayOfThree => VaryingError::PerVertexNotArrayOfThree,
            VaryingError::InvalidPerVertexSampling => VaryingError::InvalidPerVertexSampling,
        })
    }
}
